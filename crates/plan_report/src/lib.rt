//! The report of what a bound query is: its relations, variables, tree, order and safe prefixes, a line for each; and of a run over its
//! tables, how many rows and tuples there are.
//!
//! The layers above rely on this: the text is `report_of` of the query, its variables, the tree, the order, the join lists of the
//! order's prefixes and the numbers of a run, and so it is the same for the same query and tables.
#![tactic(auto)]

mod lines;
mod pieces;
mod runs;
mod trees;
mod writing;

pub use runs::RunPart;
pub use writing::{ReportInput, report};
