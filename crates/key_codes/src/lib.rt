//! Keys: the values that a row of a table has in some columns, in their order.
//!
//! An item is a row of a table under the columns of its key. Contracts see a key as the list of its values. The layers above
//! rely on this: two keys are the same exactly where their values are equal lists, a cell of a key is the table's own, and the
//! numbers that the keys of an edge are given are equal exactly where the keys are, and equal keys have equal hashes. `Numbering` gives
//! such numbers to members of any type.
#![tactic(auto)]

mod columns;
mod edge_codes;
mod hashing;
mod keys;
pub mod laws;
mod numbering;
mod places;

pub use edge_codes::{EdgeCodes, codes};
pub use hashing::{fnv, hashes, mix};
pub use keys::KeyRows;
pub use numbering::Numbering;
pub use places::{Place, Placement};
