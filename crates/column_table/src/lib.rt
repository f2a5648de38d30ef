//! Tables with typed columns, and sets of their rows.
//!
//! A table keeps a column for each of its types: numbers side by side, and the bytes of all texts of a column in one piece.
//! Contracts see a table as the types of its columns and the list of its rows, and a set of rows as one bit for each row.
//! The layers above rely on this: each row has a value of the right type in each column, texts are UTF-8, and a refused
//! call leaves the table as it was.
#![tactic(auto)]

mod builder;
mod column;
mod declared;
mod laws;
mod row_bits;
mod table;
mod texts;

pub use builder::TableBuilder;
pub use declared::{ColumnDecl, Decl};
pub use laws::texts_are_read;
pub use row_bits::RowBits;
pub use table::Table;
