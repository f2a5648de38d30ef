//! How large the parts of a plan may be. Past a limit a plan isn't valid.

/// The pipes of a plan.
pub const MAX_PIPES: usize = 128;

/// The ports by which a pipe writes.
pub const MAX_WRITES: usize = 4_294_967_295;
