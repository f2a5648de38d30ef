// Values of tables, and cells that borrow their text.
use crate::texts::Str;

/// The type of a column.
#[derive(Clone, Copy, Debug, PartialEq, Eq)]
pub enum ColumnType {
    /// A signed number of 64 bits.
    Int,
    /// UTF-8 text, compared by its bytes.
    Text,
}

/// A value. Numbers come before texts.
#[derive(Drop, PartialEq, Eq, PartialOrd, Ord)]
pub enum Value {
    Int(i64),
    Text(Str),
}

/// A value of a table, whose text is the table's own. Cells are ordered as values are.
#[derive(Clone, Copy, PartialEq, Eq, PartialOrd, Ord)]
pub enum Cell<'a> {
    Int(i64),
    Text(&'a [u8]),
}
