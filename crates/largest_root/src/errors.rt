// Why there is no tree.

/// Why there is no tree.
#[derive(Clone, Copy, Debug, PartialEq, Eq)]
pub enum TreeError {
    /// The relations have no join list: the heaviest of their lists with parents weighs `best`, and a join list weighs
    /// `needed`, which is more.
    Cyclic { best: u32, needed: u32 },
    /// Want of memory.
    Memory,
}
