// Why a line can't be read.
use rpt_base::Memory;
use std::alloc::{AllocError, AllocFailed};
use thiserror::Error;

/// Why a line can't be read.
#[derive(Clone, Copy, Debug, Drop, PartialEq, Eq, Error)]
pub enum CaseError {
    /// A backslash with nothing behind it that means a byte.
    #[error("no byte behind a backslash")]
    Escape,
    /// Not a number where one belongs.
    #[error("no number")]
    Number,
    /// A word where none of its kind belongs, or too few of them.
    #[error("no such word")]
    Word,
    /// What the call can't be asked.
    #[error("out of the call's range")]
    Range,
    /// Want of memory.
    #[error("out of memory")]
    Memory,
}

impl From<Memory> for CaseError {
    fn from(_memory: Memory) -> CaseError {
        CaseError::Memory
    }
}

impl From<AllocError> for CaseError {
    fn from(_error: AllocError) -> CaseError {
        CaseError::Memory
    }
}

impl<T: Drop> From<AllocFailed<T>> for CaseError {
    fn from(_error: AllocFailed<T>) -> CaseError {
        CaseError::Memory
    }
}
