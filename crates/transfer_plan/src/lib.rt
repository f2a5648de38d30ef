//! The plan of a tree: the pipes that filters go along.
//!
//! The plan has two passes along the tree. Forward, from the end of its list to the root, each relation lets those of its
//! items pass for which each of its children has one with the same key that passes; backward, from the root, those for which
//! the parent has one that is kept (Yannakakis 1981; with filters in place of the keys, Predicate Transfer).
//!
//! Contracts see the plan of a tree as the list of its pipes, and each region by what it is for. The layers above rely on
//! this: the plan is valid and it is the definition's; by its sealed regions an item passes where the filters of its
//! relation's neighbours have its number; and the items that pass backward are those that a run of the plan keeps.
#![tactic(auto)]

pub mod laws;
mod layout;
mod pipes;
mod plan;
mod region;
mod regions;

pub use plan::{Edge, plan_of};
pub use region::Region;
