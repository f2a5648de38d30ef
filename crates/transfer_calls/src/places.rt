// Places of hashes.
use bloom_block::{bloom_words, place_hash};
use case_text::{CaseError, number_of, put};

/// Puts the word and the bits of a hash's place in a region of so many words.
pub fn put_place(head: &str, given: &mut String) -> Result<(), CaseError> {
    let mut words = head.split_whitespace();
    let hash = hash_of(words.next())?;
    let count = number_of(words.next())?;
    if count < 1 {
        return Err(CaseError::Range);
    }
    let place = place_hash(hash, count);
    put(
        given,
        format_args!("word {} bits {}\n", place.word, place.mask),
    );
    Ok(())
}

/// The hash that a word writes.
pub fn hash_of(word: Option<&str>) -> Result<u64, CaseError> {
    match word {
        Some(word) => word.parse::<u64>().map_err(|_| CaseError::Number),
        None => Err(CaseError::Number),
    }
}

/// Puts how many words a filter of so many rows has.
pub fn put_words(head: &str, given: &mut String) -> Result<(), CaseError> {
    let rows = number_of(Some(head))?;
    put(given, format_args!("{}\n", bloom_words(rows)));
    Ok(())
}
