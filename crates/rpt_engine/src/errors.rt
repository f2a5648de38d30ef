// Why a query can't be answered.
ghost use Rattle.std.specs.Prelude.{◌≡◌};

use rpt_base::Memory;
use thiserror::Error;

/// Why a query isn't prepared.
#[derive(Clone, Copy, Debug, Drop, PartialEq, Eq, Error)]
pub enum PrepareError {
    /// The query has no join list. The heaviest list of its relations with parents has the weight `best`, and a join list
    /// would have `needed`.
    #[error("cyclic: weight {best} of {needed}")]
    Cyclic { best: u32, needed: u32 },
    /// So many first relations of the order, and no fewer, aren't a safe set.
    #[error("unsafe order at prefix {prefix}")]
    UnsafeOrder { prefix: u32 },
    /// Want of memory.
    #[error("out of memory")]
    Memory,
}

impl From<Memory> for PrepareError {
    ghost use Rattle.rpt_engine.specs.declared.errors.PrepareError.TheVariants as error;

    ghost from_gives = { λ _ e. e ≡ error.Memory };

    fn from(_memory: Memory) -> PrepareError {
        PrepareError::Memory
    }
}

/// Why a query has no answer.
#[derive(Clone, Copy, Debug, Drop, PartialEq, Eq, Error)]
pub enum AnswerError {
    /// This prefix of the order has 2^63 tuples or more, and no lesser one has. Prefixes are numbered from 1, the first relation.
    #[error("too many joined rows at prefix {prefix}")]
    RowsOverflow { prefix: u32 },
    /// Want of memory.
    #[error("out of memory")]
    Memory,
}

impl From<Memory> for AnswerError {
    ghost use Rattle.rpt_engine.specs.declared.errors.AnswerError.TheVariants as error;

    ghost from_gives = { λ _ e. e ≡ error.Memory };

    fn from(_memory: Memory) -> AnswerError {
        AnswerError::Memory
    }
}
