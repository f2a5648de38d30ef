//! Sets of relations that may be joined before the rest, and join orders that go through such sets alone.
//!
//! A set is safe where some join list begins with it. Once the tables are reduced along that list, the set can be joined
//! first and gives no row that the rest would throw away. A set is tried by growing the tree that lists it first: that
//! tree weighs most of all such lists, so the set is safe exactly where the tree is a join list.
//!
//! The layers above rely on this: a set is called unsafe exactly where no join list begins with it; an order is refused
//! exactly where one of its prefixes is unsafe, and the least of them is told; and a safe set's tree is a join list that
//! begins with the set, the one that the growing rules determine where all relations are of one size.
#![tactic(auto)]

mod errors;
mod laws;
mod orders;
mod sets;

pub use errors::{OrderError, SetError};
pub use laws::{has_first_unsafe, has_safe_lists};
pub use orders::{safe_lists, safe_order};
pub use sets::safe_set;
