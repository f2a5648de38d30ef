// The words of the command line.
ghost use Rattle.std.specs.Prelude.{◌≡◌, IfOk};
ghost use Rattle.command_words.specs.Words.{GivesCommand, IsWithinLimits, command_of, command_with};
ghost use Rattle.command_words.specs.Words.{may_have, mode_of, words_of};

use crate::errors::WordsError;
use crate::numbers::sample_number;
use crate::settings::{Settings, is_option, read_settings};
use rpt_base::{FilterKind, Str};
use std::alloc::Global;

/// What is asked for.
#[derive(Clone, Copy, PartialEq, Eq)]
pub enum Mode {
    /// The answer's text.
    Run,
    /// The report of how the answer is found, with the numbers of rows.
    Explain,
    /// The report of the tree, the order and its safe prefixes, for which no table is read.
    Check,
    /// The report and the output's size and hash of a query over tables that are made, and not read.
    Sample,
}

/// What the words ask for.
#[derive(Drop)]
pub struct Command {
    pub mode: Mode,
    /// The name of the script's file; in mode sample a number, as `sample_number` reads it.
    pub script: Str,
    /// The folder of the tables' files.
    pub folder: Str,
    /// The kind of the filters.
    pub filter: FilterKind,
    /// The number of workers, from 1 to 32.
    pub workers: u32,
    /// How many items a worker takes at a time: a multiple of 64 from 64 to 65,536.
    pub morsel: u32,
    /// The names of the relations in the order in which they are joined, with commas between them.
    pub order: Option<Str>,
    /// Whether an order is taken that isn't accepted.
    pub force: bool,
}

// How many workers there are where the words don't say it.
const DEFAULT_WORKERS: u32 = 4;

// How many items a morsel has where the words don't say it.
const DEFAULT_MORSEL: u32 = 1_024;

/// Reads the words, without the program's name: a mode, a script's file and a folder, neither of which begins with `-`, and then
/// in any order, each at most once, `--force` and the options with their values, which don't begin with `-`.
///
/// `--filter` has the value `bloom`, `exact` or `none`; `--workers` one to five digits that say 1 to 32; `--morsel` one to five
/// digits that say a multiple of 64 from 64 to 65,536; `--order` any. Without them the filters are exact, there are 4 workers,
/// and a morsel has 1,024 items. In mode sample the script is a number.
///
/// `Usage` comes exactly where the words aren't so, and `Memory` for want of it.
pub fn read_words(alloc: Global, words: &[String]) -> Result<Command, WordsError>
    ensures gives { GivesCommand (command_of (words_of words.now)) result }
    ensures fits { IfOk result IsWithinLimits }
{
    let [mode, script, folder, settings @ ..] = words else {
        return Err(WordsError::Usage);
    };
    let Some(mode) = mode_of(mode.as_str()) else {
        return Err(WordsError::Usage);
    };
    let script = script.as_str();
    let folder = folder.as_str();
    if !may_have(mode, script, folder) {
        return Err(WordsError::Usage);
    }
    let settings = read_settings(alloc, settings)?;
    command_with(alloc, mode, script, folder, settings)
}

// Whether a mode can have these: neither begins with a dash, and in mode sample the script is a number.
fn may_have(mode: Mode, script: &str, folder: &str) -> bool
    ensures { result ≡ may_have mode script.now folder.now }
{
    if is_option(script) || is_option(folder) {
        return false;
    }
    match mode {
        Mode::Sample => sample_number(script).is_some(),
        Mode::Run | Mode::Explain | Mode::Check => true,
    }
}

// The command of these parts, with the defaults of settings that aren't there.
fn command_with(
    alloc: Global,
    mode: Mode,
    script: &str,
    folder: &str,
    settings: Settings,
) -> Result<Command, WordsError>
    ensures { GivesCommand (Some (command_with mode script.now folder.now settings)) result }
{
    let script = Str::from_text(alloc, script)?;
    let folder = Str::from_text(alloc, folder)?;
    Ok(Command {
        mode,
        script,
        folder,
        filter: settings.filter.unwrap_or(FilterKind::Exact),
        workers: settings.workers.unwrap_or(DEFAULT_WORKERS),
        morsel: settings.morsel.unwrap_or(DEFAULT_MORSEL),
        order: settings.order,
        force: settings.force,
    })
}

// The mode that a word says.
fn mode_of(word: &str) -> Option<Mode>
    ensures { result ≡ mode_of word.now }
{
    match word {
        "run" => Some(Mode::Run),
        "explain" => Some(Mode::Explain),
        "check" => Some(Mode::Check),
        "sample" => Some(Mode::Sample),
        _ => None,
    }
}
