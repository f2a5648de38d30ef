//! The tree that a query's relations are joined along, grown from its largest relation.
//!
//! A tree grows link by link: of all pairs of a relation that isn't listed yet and one that is, the pair that shares most
//! variables is taken, and fixed rules break ties. No list of the relations with parents weighs more than the one that
//! grows so, and a join list weighs most of all. So the query has a join list exactly where the tree that has grown is one.
//!
//! The layers above rely on this: the tree is the one that the rules determine, so two runs give the same; a query is
//! called cyclic exactly where it has no join list; and where a set is to be listed before the rest, the tree is heaviest
//! among the lists that list it so.
#![tactic(auto)]

mod errors;
mod growth;
mod laws;
mod links;
mod parents;
mod roots;
mod tree;

pub use errors::TreeError;
pub use laws::{has_grown_tree, has_tree};
pub use tree::{grow, join_tree};
