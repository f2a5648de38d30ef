// Sets of relations.

/// A set of a query's relations: bit i, from the lowest on, is relation i.
#[derive(Clone, Copy, PartialEq, Eq)]
pub struct RelSet(pub u32);
