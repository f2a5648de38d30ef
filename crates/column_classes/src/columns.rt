// Columns of a query, and equalities between them.

/// A column of a query: the number of its relation, from 0 in the order of FROM, and its place in that relation, from 0.
#[derive(Clone, Copy, Debug, PartialEq, Eq)]
pub struct ColumnRef {
    pub relation: u32,
    pub column: u32,
}

/// A written equality of two columns.
#[derive(Clone, Copy)]
pub struct Equality {
    pub left: ColumnRef,
    pub right: ColumnRef,
}
