//! The classes of columns that a query's written equalities link.
//!
//! A variable is a class with columns in two or more relations. The layers above rely on this: two columns are in one class
//! exactly where a chain of written equalities links them, the variables stand by their least columns, and each relation has the
//! pairs of its linked columns and the numbers of its variables.
#![tactic(auto)]

mod classes;
mod columns;
mod laws;
mod variables;

pub use columns::{ColumnRef, Equality};
pub use laws::has_variables;
pub use variables::Variables;
