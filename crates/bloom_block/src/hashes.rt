// The place of a hash, and how many words there are.
ghost use Rattle.std.specs.Prelude.{◌≡◌, ◌≢◌, ◌<◌, ◌≤◌, ◌*◌, ◌^◌, ◌/◌, ◌%◌};
ghost use Rattle.bloom_block.specs.Hashes.{bloom_words, hash_place};

use key_codes::Place;

/// The place of a hash in a region of so many words: the word is chosen by the upper 32 bits, and four of its 64 bits by the lower 24, six
/// for each. Some of the four may be one.
pub fn place_hash(hash: u64, words: u32) -> Place
    requires { 1 ≤ words }
    ensures place { result ≡ hash_place hash words }
    ensures inside { result.word < words }
    ensures some_bit { result.mask ≢ 0 }
{
    Place {
        word: word_of(hash >> 32, words),
        mask: (bit(hash) | bit(hash >> 6)) | (bit(hash >> 12) | bit(hash >> 18)),
    }
}

// The word that so many of 2^32 parts lead to.
fn word_of(part: u64, words: u32) -> u32
    requires part { part < 2 ^ 32 }
    requires words { 1 ≤ words }
    ensures word { result ≡ part * words / 2 ^ 32 }
    ensures inside { result < words }
{
    ((part * u64::from(words)) >> 32) as u32
}

// The bit that the lowest six bits of a number choose.
fn bit(number: u64) -> u64
    ensures { result ≡ 2 ^ (number % 64) }
{
    1 << (number % 64)
}

/// How many words a filter of so many rows has: one for every four of them, and at least one.
pub fn bloom_words(rows: u32) -> u32
    ensures { result ≡ bloom_words rows }
{
    rows.div_ceil(4).max(1)
}
