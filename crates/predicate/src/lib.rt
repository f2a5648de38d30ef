//! Conditions over the rows of one table.
//!
//! A condition is a tree of comparisons and LIKE, joined by AND, OR and NOT. A call's answer is what the condition's
//! definition says of the row, seen as the list of its values. The layers above rely on this: `holds` takes no memory, and
//! `select` has a bit for each row, equal to what `holds` answers.
#![tactic(auto)]

mod like;
mod selection;
mod tree;
mod truth;
mod typing;

pub use rpt_base::Comparison as Op;
pub use selection::select;
pub use tree::{Operand, Pred};
pub use truth::holds;
pub use typing::is_typed;
