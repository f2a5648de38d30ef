//! The rows of a relation that may take part in an answer.
//!
//! The layers above rely on this: `selected` lists, in order, the rows of which the relation's condition is true and that have the same
//! value in each two columns of the relation that a chain of written equalities links.
#![tactic(auto)]

mod linked;
mod selection;

pub use selection::selected;
