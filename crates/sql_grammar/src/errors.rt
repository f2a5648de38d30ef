// Why there is no syntax tree.
ghost use Rattle.std.specs.Prelude.{◌≡◌};

use rpt_base::Memory;
use std::alloc::{AllocError, AllocFailed};
use thiserror::Error;

/// Why tokens have no syntax tree.
#[derive(Clone, Copy, Debug, Drop, PartialEq, Eq, Error)]
pub enum ParseError {
    /// The tokens before this offset begin a script, and with the token there they begin none. At the script's length: they
    /// begin a script, and are none.
    #[error("syntax error at {at}")]
    Syntax { at: u32 },
    /// The token at this offset opens a 65th level inside of 64 open ones.
    #[error("nested too deep at {at}")]
    TooDeep { at: u32 },
    /// Want of memory.
    #[error("out of memory")]
    Memory,
}

impl From<Memory> for ParseError {
    ghost use Rattle.sql_grammar.specs.declared.errors.ParseError.TheVariants as error;

    ghost from_gives = { λ _ e. e ≡ error.Memory };

    fn from(_memory: Memory) -> ParseError {
        ParseError::Memory
    }
}

impl From<AllocError> for ParseError {
    ghost use Rattle.sql_grammar.specs.declared.errors.ParseError.TheVariants as error;

    ghost from_gives = { λ _ e. e ≡ error.Memory };

    fn from(_error: AllocError) -> ParseError {
        ParseError::Memory
    }
}

impl<T: Drop> From<AllocFailed<T>> for ParseError {
    ghost use Rattle.sql_grammar.specs.declared.errors.ParseError.TheVariants as error;

    ghost from_gives = { λ _ e. e ≡ error.Memory };

    fn from(_failed: AllocFailed<T>) -> ParseError {
        ParseError::Memory
    }
}
