// Regions that nothing is put into any more.
ghost use Rattle.std.specs.Prelude.{◌≡◌, ◌<◌, [], IfOk, length, map, replicate, slice_index, slice_index_or, slice_set};
ghost use Rattle.transfer_core.specs.Words.{put_in};

use rpt_base::Memory;
use std::alloc::Global;
use std::marker::Model;

/// The words of regions. Contracts see them as a list of lists: the words of each region.
#[derive(Debug, Drop)]
pub struct Sealed {
    words: Vec<Vec<u64>>,
}

impl Model for Sealed {
    ghost use Rattle.std.specs.Prelude.{List, ℕ, map};

    ghost Value = { List (List ℕ) };

    ghost view = { λ s. map (λ v. v.items) s.words.items };
}

impl Sealed {
    /// Regions with these words, which are kept as they are.
    pub fn of(words: Vec<Vec<u64>>) -> Sealed
        ensures { result ≡ map (λ v. v.items) words.items }
    {
        Sealed { words }
    }

    /// A word of a region, both numbered from 0.
    pub fn word(&self, region: u32, word: u32) -> u64
        requires region { region < length self.now }
        requires word { word < length (slice_index_or self.now region []) }
        ensures { result ≡ slice_index (slice_index_or self.now region []) word }
    {
        self.words[region as usize][word as usize]
    }

    /// Regions of so many words each, all 0.
    pub(crate) fn zeros(alloc: Global, counts: &[u32]) -> Result<Sealed, Memory>
        ensures { IfOk result (λ sealed. sealed ≡ map (λ n. replicate n 0) counts.now) }
    {
        let mut words = Vec::with_capacity(alloc, counts.len())?;
        for count in counts {
            let zeros = vec![in alloc; 0; *count as usize]?;
            words.push(zeros)?;
        }
        Ok(Sealed { words })
    }

    /// Gives a region these words in place of its own.
    pub(crate) fn replace(&mut self, region: u32, words: Vec<u64>)
        requires region { region < length self.old }
        ensures { self.new ≡ slice_set self.old region words.items }
    {
        self.words[region as usize] = words;
    }

    /// Puts a mask into a word of a region.
    pub(crate) fn put(&mut self, region: u32, word: u32, mask: u64)
        requires region { region < length self.old }
        requires word { word < length (slice_index_or self.old region []) }
        ensures { self.new ≡ put_in self.old region word mask }
    {
        self.words[region as usize][word as usize] |= mask;
    }
}
