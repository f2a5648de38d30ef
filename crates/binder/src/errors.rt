// Why a script isn't bound.
use script_rules::BindKind;

/// Why a script isn't bound.
#[derive(Clone, Copy, Debug, Drop, PartialEq, Eq)]
pub enum BindError {
    /// The first refusal that holds of it, and the offset of its place in the script's bytes, from 0.
    Refused { kind: BindKind, at: u32 },
    /// Want of memory.
    Memory,
}
