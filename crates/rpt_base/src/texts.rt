// Texts, and want of memory.
ghost use Rattle.std.specs.Prelude.{◌≡◌, ◌↔◌, ◌==◌, IfOk, IsErrOf};
ghost use Rattle.std.specs.Str.{IsUtf8};
ghost use Rattle.std.specs.Ordering.{nat_cmp, as_partial_cmp};
ghost use Rattle.std.specs.Cmp.Lexicographic.{pointwise, slice_cmp};
ghost use Rattle.std.specs.Cmp.{partial_order_from_own_ties};
ghost use Rattle.std.specs.Cmp.Rules.{comparing};
ghost use Rattle.std.proofs.Common.{rules};

use std::alloc::{AllocError, AllocFailed, Global};
use std::cmp::Ordering;
use std::marker::Model;
use std::str;

/// Want of memory. It is the one answer that a call may always give.
#[derive(Clone, Copy, Debug, PartialEq, Eq)]
pub struct Memory;

impl From<AllocError> for Memory {
    fn from(_error: AllocError) -> Memory {
        Memory
    }
}

impl<T: Drop> From<AllocFailed<T>> for Memory {
    fn from(_failed: AllocFailed<T>) -> Memory {
        Memory
    }
}

/// Why there is no text.
#[derive(Clone, Copy, Debug, PartialEq, Eq)]
pub enum StrError {
    /// The bytes aren't UTF-8.
    NotUtf8,
    /// Want of memory.
    Memory,
}

/// UTF-8 text, which contracts see as the list of its bytes. Texts are ordered by their bytes.
#[derive(Drop)]
pub struct Str {
    text: String,
}

impl Model for Str {
    ghost use Rattle.std.specs.Prelude.{List, ℕ, string_bytes};

    ghost Value = { List ℕ };

    ghost view = { λ s. string_bytes s.text };
}

impl Str {
    /// The text of these bytes. `NotUtf8` comes exactly where they aren't UTF-8.
    pub fn from_bytes(alloc: Global, bytes: &[u8]) -> Result<Str, StrError>
        ensures text { IfOk result (λ s. s ≡ bytes.now) }
        ensures utf8 { IfOk result (λ s. IsUtf8 bytes.now) }
        ensures not_utf8 { IsErrOf result StrError.NotUtf8 ↔ (¬ IsUtf8 bytes.now) }
    {
        match str::from_utf8(bytes) {
            Ok(text) => match Str::from_text(alloc, text) {
                Ok(text) => Ok(text),
                Err(_) => Err(StrError::Memory),
            },
            Err(_) => Err(StrError::NotUtf8),
        }
    }

    /// The same text as the language's own.
    pub fn from_text(alloc: Global, text: &str) -> Result<Str, Memory>
        ensures { IfOk result (λ s. s ≡ text.now) }
    {
        let text = String::from_str(alloc, text)?;
        Ok(Str { text })
    }

    /// The text.
    pub fn as_str(&self) -> &str
        ensures { result.now ≡ self.now }
    {
        self.text.as_str()
    }

    /// The bytes of the text.
    pub fn bytes(&self) -> &[u8]
        ensures bytes { result.now ≡ self.now }
        ensures utf8 { IsUtf8 self.now }
    {
        self.text.as_str().as_bytes()
    }

    /// The same text once more.
    pub fn copy(&self, alloc: Global) -> Result<Str, Memory>
        ensures { IfOk result (λ s. s ≡ self.now) }
    {
        Str::from_text(alloc, self.as_str())
    }
}

impl PartialEq for Str {
    ghost eq = { pointwise ◌==◌ };

    ghost laws = { Prim.search (comparing, rules) };

    fn eq(&self, other: &Str) -> bool {
        self.bytes() == other.bytes()
    }
}

impl Eq for Str {
    ghost laws = { Prim.search (comparing, rules) };
}

impl PartialOrd for Str {
    ghost partial_cmp = { as_partial_cmp (slice_cmp nat_cmp) };

    ghost laws = { partial_order_from_own_ties (Prim.search (comparing, rules)) (Prim.search (comparing, rules)) };

    fn partial_cmp(&self, other: &Str) -> Option<Ordering> {
        Some(self.cmp(other))
    }
}

impl Ord for Str {
    ghost cmp = { slice_cmp nat_cmp };

    ghost total = { Prim.search (comparing, rules) };

    ghost matches_partial_cmp = { Prim.search (comparing, rules) };

    ghost matches_eq = { Prim.search (comparing, rules) };

    fn cmp(&self, other: &Str) -> Ordering {
        self.bytes().cmp(other.bytes())
    }
}
