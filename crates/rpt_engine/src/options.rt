// How a query is answered.
use rpt_base::{FilterKind, Listed};

/// How a query is answered. None of this changes the answer.
#[derive(Drop)]
pub struct Options {
    /// The filters that go along the tree.
    pub filter: FilterKind,
    /// How many workers there are, 1 to 32.
    pub workers: u32,
    /// How many items a worker takes at a time: a multiple of 64 from 64 to 65,536.
    pub morsel: u32,
    /// The relations in the order in which they are joined; none, where the tree says it.
    pub order: Option<Listed<u32>>,
    /// Whether an order is taken that isn't accepted.
    pub force: bool,
}
