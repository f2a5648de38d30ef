// What the program replies to the words of a command line: a text, or a refusal.
ghost use Rattle.rpt_outside.specs.Seen.{seen};
ghost use Rattle.rpt_outside.specs.Whole.{bytes_of};
ghost use Rattle.command_words.specs.Words.{IsWithinLimits, words_of};
ghost use Rattle.rpt_cli.specs.Course.{Gives};
ghost use Rattle.rpt_cli.specs.Command.{command_course, course, files_course, is_made};
ghost use Rattle.std.specs.Prelude.{◌≡◌};
ghost use Rattle.rpt_cli.specs.Steps.{AreKept};

use crate::modes::answer_bound;
use crate::query::read_query;
use crate::sample::answer_sample;
use command_words::{Command, Mode, WordsError, read_words};
use refusal_lines::Refusal;
use rpt_outside::{Files, Gate};
use std::alloc::Global;
use std::thread::Threads;

/// The text that the words ask for, or why there is none.
pub(crate) fn reply_to<R: Threads + Sync, F: Files, G: Gate + Sync>(
    rt: &R,
    alloc: Global,
    words: &[String],
    files: &mut F,
    gate: &G,
) -> Result<Vec<u8>, Refusal>
    ensures gives { Gives (seen F.Files files.old files.new)
        (course (words_of words.now)) (bytes_of result) }
    ensures kept { AreKept F.Files files.old files.new }
{
    match read_words(alloc, words) {
        Ok(command) => follow(rt, alloc, &command, files, gate),
        Err(WordsError::Usage) => Err(Refusal::Usage),
        Err(WordsError::Memory) => Err(Refusal::Memory),
    }
}

// Answers a command: from files, or over a sample, which is made.
fn follow<R: Threads + Sync, F: Files, G: Gate + Sync>(
    rt: &R,
    alloc: Global,
    command: &Command,
    files: &mut F,
    gate: &G,
) -> Result<Vec<u8>, Refusal>
    requires fits { IsWithinLimits command.now }
    ensures gives { Gives (seen F.Files files.old files.new)
        (command_course command.now) (bytes_of result) }
    ensures kept { AreKept F.Files files.old files.new }
{
    if is_made(command.mode) {
        answer_sample(rt, alloc, command, gate)
    } else {
        answer_files(rt, alloc, command, files, gate)
    }
}

// Whether a mode's script and tables are made.
fn is_made(mode: Mode) -> bool
    ensures { result ≡ is_made mode }
{
    match mode {
        Mode::Sample => true,
        Mode::Run | Mode::Explain | Mode::Check => false,
    }
}

// Reads the script's file, and answers its query.
fn answer_files<R: Threads + Sync, F: Files, G: Gate + Sync>(
    rt: &R,
    alloc: Global,
    command: &Command,
    files: &mut F,
    gate: &G,
) -> Result<Vec<u8>, Refusal>
    requires fits { IsWithinLimits command.now }
    ensures gives { Gives (seen F.Files files.old files.new)
        (files_course command.now) (bytes_of result) }
    ensures kept { AreKept F.Files files.old files.new }
{
    let bound = read_query(alloc, files, &command.script)?;
    answer_bound(rt, alloc, command, bound, files, gate)
}
