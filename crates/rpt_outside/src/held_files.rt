// Files in memory, of which none is missing.
ghost use Rattle.std.specs.Prelude.{◌≡◌, List, ℕ, Some, drop, false, true};
ghost use Rattle.rpt_outside.specs.Held.{bytes_at, held_bytes};

use crate::memory_files::{bytes_of, copy_from, place_of};
use crate::traits::{Failed, Files};

/// Files in memory, which tell their contents. No call fails: a name that no file has is that of a file without bytes.
#[derive(Drop)]
pub struct HeldFiles {
    files: Vec<(Vec<u8>, Vec<u8>)>,
    // The place of the started file, or the number of files.
    started: usize,
    at: usize,
}

impl HeldFiles {
    /// Files as pairs of a name and its bytes; of several files of one name the first counts.
    pub fn new(files: Vec<(Vec<u8>, Vec<u8>)>) -> HeldFiles
        ensures none_missing { ⟦<HeldFiles as Files>⟧.is_missing result ≡ λ name. false }
        ensures contents { ⟦<HeldFiles as Files>⟧.contents result
            ≡ λ name. Some (held_bytes files.items name) }
        ensures no_faults { ⟦<HeldFiles as Files>⟧.faults result ≡ λ name. 0 }
    {
        let started = files.len();
        HeldFiles {
            files,
            started,
            at: 0,
        }
    }
}

impl Files for HeldFiles {
    ghost is_missing = { λ s name. false };

    ghost contents = { λ s name. Some (held_bytes s.files.items name) };

    ghost is_started = { λ s name. true };

    ghost left = { λ s. Some (drop s.at (bytes_at s.files.items s.started)) };

    ghost faults = { λ s name. 0 };

    fn start_file(&mut self, name: &[u8]) -> Result<(), Failed> {
        self.started = place_of(&self.files, name);
        self.at = 0;
        Ok(())
    }

    fn read(&mut self, into: &mut [u8]) -> Result<usize, Failed> {
        if self.started >= self.files.len() {
            return Ok(0);
        }
        let bytes = bytes_of(&self.files, self.started);
        let (count, end) = copy_from(bytes, self.at, u32::MAX, into);
        self.at = end;
        Ok(count)
    }
}
