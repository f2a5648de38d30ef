// Kinds of filters.

/// Which filters are built from the tables' keys before anything is joined.
#[derive(Clone, Copy, PartialEq, Eq)]
pub enum FilterKind {
    /// Some keys that aren't there may pass.
    Bloom,
    /// The keys that are there pass, and no others.
    Exact,
    /// No filters: all keys pass.
    Off,
}
