//! What the names of a script resolve to, and the rules that refuse it.
//!
//! A reference to a column resolves to the one column of the scope that it may name. The layers above rely on this: a script is
//! refused exactly where a rule refuses it, and the refusal that is told is the first of them.
#![tactic(auto)]

mod conditions;
mod conjuncts;
mod found;
mod kinds;
mod named;
mod operands;
mod refusal;
mod scope;
mod sources;
mod tables;

pub use conjuncts::is_equality;
pub use found::Violation;
pub use kinds::BindKind;
pub use named::first_relation;
pub use operands::column_of;
pub use refusal::first_violation;
pub use scope::Scope;
pub use sources::{columns_of, is_same, name_of};
