// Numbers that words say.
ghost use Rattle.std.specs.Prelude.{◌≡◌};
ghost use Rattle.std.specs.Char.{is_ascii_digit};
ghost use Rattle.std.specs.List.{list_all};
ghost use Rattle.command_words.specs.Words.{are_digits, morsel_of, number_of, sample_number, workers_of};

use rpt_base::limits::{are_workers, is_morsel};

// How many digits a setting's number has at most.
const SETTING_DIGITS: usize = 5;

// How many digits a sample's number has at most.
const SAMPLE_DIGITS: usize = 10;

/// The number that SCRIPT says in mode sample: one to ten ASCII digits, with a value of at most 4,294,967,295.
pub fn sample_number(script: &str) -> Option<u32>
    ensures { result ≡ sample_number script.now }
{
    number_of(script, SAMPLE_DIGITS)
}

/// The number of workers that a word says: one to five ASCII digits, with a value from 1 to 32.
pub(crate) fn workers_of(word: &str) -> Option<u32>
    ensures { result ≡ workers_of word.now }
{
    let workers = number_of(word, SETTING_DIGITS)?;
    if are_workers(workers) {
        Some(workers)
    } else {
        None
    }
}

/// The items of a morsel that a word says: one to five ASCII digits, with a value that is a multiple of 64 from 64 to 65,536.
pub(crate) fn morsel_of(word: &str) -> Option<u32>
    ensures { result ≡ morsel_of word.now }
{
    let size = number_of(word, SETTING_DIGITS)?;
    if is_morsel(size) { Some(size) } else { None }
}

// The number of 32 bits that one to `most` ASCII digits write. The digits are tested first, since `parse` takes a sign as well.
#[tactic(auto, unfolding(crate::specs::Words::number_of))]
fn number_of(word: &str, most: usize) -> Option<u32>
    ensures { result ≡ number_of most word.now }
{
    if !are_digits(word, most) {
        return None;
    }
    word.parse::<u32>().ok()
}

// Whether a word is one to `most` ASCII digits.
fn are_digits(word: &str, most: usize) -> bool
    ensures { result ≡ are_digits most word.now }
{
    !word.is_empty() && word.len() <= most && all_digits(word.as_bytes())
}

fn all_digits(bytes: &[u8]) -> bool
    ensures { result ≡ list_all is_ascii_digit bytes.now }
{
    bytes.iter().all(|b| b.is_ascii_digit())
}
