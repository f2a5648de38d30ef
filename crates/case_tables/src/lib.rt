//! Values and tables, as cases write them and as they are printed.
//!
//! A value is a number, or a text in quotes without blanks. A table is the bytes of a file for columns as they are declared:
//! a name and a type each, and a comma between two.
#![tactic(auto)]

mod tables;
mod values;

pub use tables::{loaded, put_rows};
pub use values::{cell_of, int_of, put_cell, quoted, values_of};
