//! What a script's syntax tree is bound to, or the one refusal that it has.
//!
//! The relations are the sources in order. The layers above rely on this: a script is bound exactly where no rule refuses it, and
//! then to what its names resolve to. What a bound query is, and what its answer is over its tables, stands in `bound_query`.
#![tactic(auto)]

mod binding;
mod conjuncts;
mod errors;
mod shown;
mod translate;
mod used;
mod widths;
mod written;

pub use binding::bind;
pub use bound_query::{Bound, ColumnRef, Equality, OutColumn, table_at};
pub use errors::BindError;
pub use script_rules::{BindKind, Violation, first_violation};
