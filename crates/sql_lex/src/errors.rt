// Why bytes have no tokens.
ghost use Rattle.std.specs.Prelude.{◌≡◌};

use rpt_base::Memory;

/// Why bytes have no tokens.
#[derive(Clone, Copy, Debug, Drop, PartialEq, Eq)]
pub enum LexError {
    /// At this offset stands nothing that a script is made of.
    At { offset: u32 },
    /// Want of memory.
    Memory,
}

impl From<Memory> for LexError {
    ghost use Rattle.sql_lex.specs.declared.errors.LexError.TheVariants as error;

    ghost from_gives = { λ _ e. e ≡ error.Memory };

    fn from(_memory: Memory) -> LexError {
        LexError::Memory
    }
}
