//! Places of hashes: a word among all of a region's by the upper half of a hash, and four bits of that word by its lower bits.
//!
//! The layers above rely on this: equal hashes have equal places in regions of one size, so that a region that was filled by such places
//! answers yes for each hash that was put, and for few others (Bloom 1970, in blocks of one word).
#![tactic(auto)]

mod bloom;
mod hashes;

pub use bloom::Bloom;
pub use hashes::{bloom_words, place_hash};
