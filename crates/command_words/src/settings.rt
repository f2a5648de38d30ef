// The options and flags behind the first three words.
ghost use Rattle.std.specs.Prelude.{◌≡◌, ◌≤◌, drop, length};
ghost use Rattle.command_words.specs.Words.{begins_with_dash, filter_of, no_settings, settings_behind, takes_force, words_of};
ghost use Rattle.command_words.specs.Words.{set_filter, set_morsel, set_order, set_workers, with_option};
ghost use Rattle.command_words.specs.Steps.{GivesSettings, TakesOption, TakesSetting};

use crate::errors::WordsError;
use crate::numbers::{morsel_of, workers_of};
use rpt_base::{FilterKind, Str};
use std::alloc::Global;

/// What the options and flags say. An option that doesn't stand there is none.
#[derive(Drop)]
pub(crate) struct Settings {
    pub(crate) filter: Option<FilterKind>,
    pub(crate) workers: Option<u32>,
    pub(crate) morsel: Option<u32>,
    pub(crate) order: Option<Str>,
    pub(crate) force: bool,
}

/// Reads the options and flags. They stand in any order, each at most once, and an option is followed by its value, which doesn't
/// begin with a dash.
pub(crate) fn read_settings(alloc: Global, words: &[String]) -> Result<Settings, WordsError>
    ensures { GivesSettings (settings_behind no_settings (words_of words.now)) result }
{
    let mut settings = Settings {
        filter: None,
        workers: None,
        morsel: None,
        order: None,
        force: false,
    };
    let mut at = 0;
    while at < words.len() {
        let taken = take_setting(alloc, &mut settings, words_from(words, at))?;
        at += taken;
    }
    Ok(settings)
}

// The words from a place on.
fn words_from(words: &[String], place: usize) -> &[String]
    requires { place ≤ length words.now }
    ensures { result.now ≡ drop place words.now }
{
    &words[place..]
}

// Takes the first of the options and flags, and says how many words it is.
fn take_setting(
    alloc: Global,
    settings: &mut Settings,
    words: &[String],
) -> Result<usize, WordsError>
    requires { 1 ≤ length words.now }
    ensures { TakesSetting settings.old settings.new (words_of words.now) result }
{
    let word = words[0].as_str();
    if takes_force(settings, word) {
        settings.force = true;
        return Ok(1);
    }
    if words.len() < 2 {
        return Err(WordsError::Usage);
    }
    take_option(alloc, settings, word, words[1].as_str())?;
    Ok(2)
}

fn takes_force(settings: &Settings, word: &str) -> bool
    ensures { result ≡ takes_force settings.now word.now }
{
    word == "--force" && !settings.force
}

// Takes an option with its value.
#[tactic(auto, unfolding(crate::specs::Words::with_option))]
fn take_option(
    alloc: Global,
    settings: &mut Settings,
    option: &str,
    value: &str,
) -> Result<(), WordsError>
    ensures { TakesOption (with_option settings.old option.now value.now) settings.new result }
{
    if is_option(value) {
        return Err(WordsError::Usage);
    }
    match option {
        "--filter" => take_filter(settings, value),
        "--workers" => take_workers(settings, value),
        "--morsel" => take_morsel(settings, value),
        "--order" => take_order(alloc, settings, value),
        _ => Err(WordsError::Usage),
    }
}

fn take_filter(settings: &mut Settings, value: &str) -> Result<(), WordsError>
    ensures { TakesOption (set_filter settings.old value.now) settings.new result }
{
    match (settings.filter, filter_of(value)) {
        (None, Some(filter)) => {
            settings.filter = Some(filter);
            Ok(())
        }
        _ => Err(WordsError::Usage),
    }
}

fn take_workers(settings: &mut Settings, value: &str) -> Result<(), WordsError>
    ensures { TakesOption (set_workers settings.old value.now) settings.new result }
{
    match (settings.workers, workers_of(value)) {
        (None, Some(workers)) => {
            settings.workers = Some(workers);
            Ok(())
        }
        _ => Err(WordsError::Usage),
    }
}

fn take_morsel(settings: &mut Settings, value: &str) -> Result<(), WordsError>
    ensures { TakesOption (set_morsel settings.old value.now) settings.new result }
{
    match (settings.morsel, morsel_of(value)) {
        (None, Some(morsel)) => {
            settings.morsel = Some(morsel);
            Ok(())
        }
        _ => Err(WordsError::Usage),
    }
}

fn take_order(alloc: Global, settings: &mut Settings, value: &str) -> Result<(), WordsError>
    ensures { TakesOption (set_order settings.old value.now) settings.new result }
{
    if settings.order.is_some() {
        return Err(WordsError::Usage);
    }
    let order = Str::from_text(alloc, value)?;
    settings.order = Some(order);
    Ok(())
}

// The filters that a word names.
fn filter_of(word: &str) -> Option<FilterKind>
    ensures { result ≡ filter_of word.now }
{
    match word {
        "bloom" => Some(FilterKind::Bloom),
        "exact" => Some(FilterKind::Exact),
        "none" => Some(FilterKind::Off),
        _ => None,
    }
}

/// Whether a word begins with a dash, as options and flags do.
pub(crate) fn is_option(word: &str) -> bool
    ensures { result ≡ begins_with_dash word.now }
{
    match word.as_bytes() {
        [first, ..] => *first == b'-',
        [] => false,
    }
}
