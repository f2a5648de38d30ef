//! The grammar of scripts: what a sentence is, its syntax tree, and the readers of its lesser parts, up to a condition that
//! joins and negates no others.
//!
//! What speaks of scripts stands on the trees and definitions here, and the parser on the readers. Each reader takes the tokens
//! that are left, and gives what it read and the tokens behind; or that it isn't there, or the one place where it goes on no
//! further. Any tokens are a sentence or refused at a place, and never both or in two ways: `has_a_reading`, `has_one_reading`.
#![tactic(auto)]

mod comparing;
mod errors;
mod kinds;
mod laws;
mod leaves;
mod operands;
mod reading;
mod tree;

pub use comparing::test;
pub use errors::ParseError;
pub use kinds::Kind;
pub use laws::{has_a_reading, has_one_reading};
pub use leaves::{begins_name, column_type, name};
pub use operands::colref;
pub use reading::{
    after, appended, begins_with, expect, first_is, followed, paired, passes, place_of,
};
pub use rpt_base::Comparison as Op;
pub use tree::{
    Alias, ColumnItem, ColumnName, Cond, CreateTable, Expr, Item, Items, Script, Select, Source,
};
