//! The syntax tree of a script's tokens.
#![tactic(auto)]

mod conditions;
mod parsing;
mod sources;

pub use parsing::parse;
pub use sql_grammar::{
    Alias, ColumnItem, ColumnName, Cond, CreateTable, Expr, Item, Items, Op, ParseError, Script,
    Select, Source,
};
