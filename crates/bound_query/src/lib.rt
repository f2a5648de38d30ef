//! A bound query, and the rows that are its answer over its tables.
//!
//! What a script is bound to and what is joined, planned and reported are the same value, so that the layers behind it stand on
//! this crate and know nothing of SQL. They rely on this: a bound query's conditions are typed, its numbers are in range, and its
//! variables are those of its written equalities.
#![tactic(auto)]

mod bound;
mod output;
mod parts;
mod relation_tables;

pub use bound::Bound;
pub use column_classes::{ColumnRef, Equality};
pub use output::OutColumn;
pub use parts::QueryParts;
pub use relation_tables::table_at;
