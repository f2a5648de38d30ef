// Why a file has no table.
ghost use Rattle.std.specs.Prelude.{◌≡◌};

use rpt_base::Memory;
use std::alloc::{AllocError, AllocFailed};
use thiserror::Error;

/// Why a file has no table. Columns are numbered from 0 in the order of their declaration, and rows from 0, the first record
/// after the header.
#[derive(Clone, Copy, Debug, Drop, PartialEq, Eq, Error)]
pub enum LoadError {
    /// The name of this column, the first of that kind, doesn't stand exactly once in the header. A file without records
    /// has an empty header.
    #[error("header column {column}")]
    Header { column: u32 },
    /// The record of this row has another number of fields than the header.
    #[error("ragged row {row}")]
    Ragged { row: u32 },
    /// The field in this row and column of numbers isn't a number of 64 bits.
    #[error("bad field at row {row} column {column}")]
    BadField { row: u32, column: u32 },
    /// The field in this row and column of texts isn't UTF-8.
    #[error("not UTF-8 at row {row} column {column}")]
    NotUtf8 { row: u32, column: u32 },
    /// There is a row with the number 8,388,608, and no bad record before it.
    #[error("too many rows")]
    TooManyRows,
    /// Want of memory.
    #[error("out of memory")]
    Memory,
}

impl From<Memory> for LoadError {
    ghost use Rattle.csv_load.specs.declared.errors.LoadError.TheVariants as error;

    ghost from_gives = { λ _ e. e ≡ error.Memory };

    fn from(_memory: Memory) -> LoadError {
        LoadError::Memory
    }
}

impl From<AllocError> for LoadError {
    ghost use Rattle.csv_load.specs.declared.errors.LoadError.TheVariants as error;

    ghost from_gives = { λ _ e. e ≡ error.Memory };

    fn from(_error: AllocError) -> LoadError {
        LoadError::Memory
    }
}

impl<T: Drop> From<AllocFailed<T>> for LoadError {
    ghost use Rattle.csv_load.specs.declared.errors.LoadError.TheVariants as error;

    ghost from_gives = { λ _ e. e ≡ error.Memory };

    fn from(_failed: AllocFailed<T>) -> LoadError {
        LoadError::Memory
    }
}
