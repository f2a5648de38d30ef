// A column of texts.
ghost use Rattle.std.specs.Prelude.{◌≡◌, ◌<◌, ◌≤◌, ◌++◌, ◌∷◌, [], OnOk, OnErr};
ghost use Rattle.std.specs.Prelude.{length, take, slice_index, slice_get, Some};
ghost use Rattle.std.specs.Str.{IsUtf8};

use rpt_base::Memory;
use std::alloc::Global;
use std::marker::Model;

/// Texts in order, whose bytes stand one after another. Contracts see it as the list of the texts.
///
/// A text costs its bytes and the place at which it ends.
#[derive(Drop)]
pub(crate) struct TextColumn {
    // May have more bytes than the texts, after a text that was refused.
    bytes: Vec<u8>,
    // Where each text ends in `bytes`. It begins where the one before it ends.
    ends: Vec<usize>,
}

impl Model for TextColumn {
    ghost use Rattle.std.specs.Prelude.{List, ℕ};
    ghost use Rattle.column_table.specs.Texts.{pieces, ArePieces};

    ghost Value = { List (List ℕ) };

    ghost view = { λ t. pieces 0 t.bytes.items t.ends.items };

    ghost invariant = { λ t. ArePieces t.bytes.items t.ends.items };
}

impl TextColumn {
    /// No text.
    pub(crate) fn new(alloc: Global) -> TextColumn
        ensures { result ≡ [] }
    {
        TextColumn {
            bytes: Vec::new(alloc),
            ends: Vec::new(alloc),
        }
    }

    /// Puts a text after the first `at`, in the place of the others. Refused, the first `at` are left.
    pub(crate) fn put(&mut self, at: usize, text: &str) -> Result<(), Memory>
        requires { at ≤ length self.old }
        ensures ok { OnOk result (self.new ≡ take at self.old ++ text.now ∷ []) }
        ensures err { OnErr result (self.new ≡ take at self.old) }
    {
        let start = start_of(&self.ends, at);
        self.ends.truncate(at);
        self.bytes.truncate(start);
        self.bytes.extend_from_slice(text.as_bytes())?;
        self.ends.push(self.bytes.len())?;
        Ok(())
    }

    /// The bytes of the text with this number, from 0.
    pub(crate) fn text(&self, index: usize) -> &[u8]
        requires { index < length self.now }
        ensures text { slice_get self.now index ≡ Some result.now }
        ensures utf8 { IsUtf8 result.now }
    {
        let start = start_of(&self.ends, index);
        &self.bytes[start..self.ends[index]]
    }
}

// Where the text with this number begins, or the next one would.
fn start_of(ends: &Vec<usize>, index: usize) -> usize
    requires { index ≤ length ends.now.items }
    ensures { result ≡ slice_index (0 ∷ ends.now.items) index }
{
    if index == 0 { 0 } else { ends[index - 1] }
}
