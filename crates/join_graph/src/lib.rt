//! Which variables the relations of a query share, and the trees that a query's relations can be joined along.
//!
//! A graph keeps the variables of each relation, and tells how many of them two relations share: that is the weight of the
//! pair. A tree lists every relation once, and each after the first with a parent before it. Such a list is a join list
//! where the variables that a relation shares with any relation before it all lie in its parent; the crates above choose
//! and try such lists, and what a join list, its weight and a safe set of relations are is defined here once for them all.
//!
//! Contracts see a graph as the list of its relations' variables, and a tree as its root and its links. The layers above
//! rely on this: a tree weighs at most what its graph needs, and weighs just that exactly where it is a join list.
#![tactic(auto)]

mod graph;
mod laws;
mod shared;
mod tree;

pub use graph::Graph;
pub use laws::has_best;
pub use tree::{Link, Tree};
