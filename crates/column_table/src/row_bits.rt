// Sets of a table's rows.
ghost use Rattle.std.specs.Prelude.{ℕ, ◌/◌, ◌≡◌, ◌<◌, ◌≤◌, IfOk, false, true, length};
ghost use Rattle.std.specs.Prelude.{replicate, slice_index, slice_index_or, slice_set};
ghost use Rattle.std.specs.List.{count_by};
ghost use Rattle.column_table.specs.Bits.{set_rows};

use rpt_base::Memory;
use std::alloc::Global;
use std::marker::Model;

/// One bit for each row of a table. Contracts see it as that list, row 0 first.
#[derive(Drop)]
pub struct RowBits {
    // The bit of a row is in the word `row / 64`, at the place `row % 64` from the lowest bit on.
    words: Vec<u64>,
    rows: u32,
}

impl Model for RowBits {
    ghost use Rattle.std.specs.Prelude.{List, Bool};
    ghost use Rattle.column_table.specs.Bits.{AreBits, bits_of};

    ghost Value = { List Bool };

    ghost view = { λ b. bits_of b.words.items b.rows };

    ghost invariant = { λ b. AreBits b.words.items b.rows };
}

impl RowBits {
    /// No row of so many.
    pub fn none(alloc: Global, rows: u32) -> Result<RowBits, Memory>
        ensures { IfOk result (λ b. b ≡ replicate rows false) }
    {
        let words = vec![in alloc; 0; rows.div_ceil(64) as usize]?;
        Ok(RowBits { words, rows })
    }

    /// Takes a row into the set.
    pub fn set(&mut self, row: u32)
        requires { row < length self.old }
        ensures { self.new ≡ slice_set self.old row true }
    {
        self.words[(row / 64) as usize] |= 1 << (row % 64);
    }

    /// Whether a row is in the set.
    pub fn get(&self, row: u32) -> bool
        requires { row < length self.now }
        ensures { result ≡ slice_index_or self.now row false }
    {
        (word_of(&self.words, row as usize) >> (row % 64)) & 1 == 1
    }

    /// How many rows are in the set.
    pub fn count(&self) -> u32
        ensures { result ≡ count_by (λ b. b) self.now }
    {
        let mut count = 0u64;
        for word in &self.words {
            count += u64::from(word.count_ones());
        }
        count as u32
    }

    /// How many rows there are, in the set or not.
    pub fn rows(&self) -> u32
        ensures { result ≡ length self.now }
    {
        self.rows
    }

    /// The numbers of the rows in the set, rising.
    pub fn listed(&self, alloc: Global) -> Result<Vec<u32>, Memory>
        ensures { IfOk result (λ rows. rows.items ≡ set_rows self.now) }
    {
        let mut rows = Vec::new(alloc);
        let mut row = self.next_from(0);
        while row < self.rows() {
            rows.push(row)?;
            row = self.next_from(row + 1);
        }
        Ok(rows)
    }

    // The first row of the set from this one on, or else the number of rows. Words without a bit are passed over whole.
    fn next_from(&self, from: u32) -> u32
        requires { from ≤ length self.now }
        ensures bounds { (from ≤ result) × (result ≤ length self.now) }
        ensures passed { (row : ℕ) → from ≤ row → row < result
            → slice_index_or self.now row false ≡ false }
        ensures found { result < length self.now → slice_index_or self.now result false ≡ true }
    {
        let rows = self.rows() as usize;
        let mut row = from as usize;
        while row < rows {
            let word = word_of(&self.words, row);
            let rest = word >> (row % 64);
            if rest != 0 {
                return (row + rest.trailing_zeros() as usize) as u32;
            }
            row += 64 - row % 64;
        }
        self.rows()
    }
}

// The word that has a row's bit.
fn word_of(words: &Vec<u64>, row: usize) -> u64
    requires { row / 64 < length words.now.items }
    ensures { result ≡ slice_index words.now.items (row / 64) }
{
    words[row / 64]
}
