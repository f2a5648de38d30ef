// What a script declares of a table.
use rpt_base::{ColumnType, Listed, Name};

/// A declared column.
#[derive(Drop)]
pub struct ColumnDecl {
    pub name: Name,
    pub kind: ColumnType,
}

/// A declared table: its name, and its columns in order, numbered from 0.
#[derive(Drop)]
pub struct Decl {
    pub name: Name,
    pub columns: Listed<ColumnDecl>,
}
