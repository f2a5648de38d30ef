// Why there is no join list for a set or an order.

/// Why there is no join list that begins with a set.
#[derive(Clone, Copy, Debug, PartialEq, Eq)]
pub enum SetError {
    /// No join list begins with the set.
    Unsafe,
    /// Want of memory.
    Memory,
}

/// Why there are no join lists for the prefixes of an order.
#[derive(Clone, Copy, Debug, PartialEq, Eq)]
pub enum OrderError {
    /// No join list begins with the first `prefix` relations, which is the least such number from 1 on.
    Unsafe { prefix: u32 },
    /// Want of memory.
    Memory,
}
