// Files in memory, whose calls fail by number.
ghost use Rattle.std.specs.Prelude.{◌≡◌, ◌+◌, ◌≤◌, ◌<◌, length, take, drop, List, ℕ, [], ◌++◌, false, IfOk, slice_index_or};
ghost use Rattle.std.specs.Option.{ForSome};
ghost use Rattle.rpt_outside.specs.Causes.{Rose};
ghost use Rattle.rpt_outside.specs.Held.{place, bytes_at, contents_of, count_of, is_at, is_missing_among, left_of};

use crate::traits::{Failed, Files};
use rpt_base::Memory;
use std::alloc::Global;

/// Files in memory, which tell their contents. Chosen calls fail, so that a caller's faults can be tried one by one.
///
/// There is a count of faults for each file, and one for all names that have no file.
#[derive(Drop)]
pub struct MemoryFiles {
    files: Vec<(Vec<u8>, Vec<u8>)>,
    fail: Vec<u32>,
    piece: u32,
    calls: u64,
    counts: Vec<u64>,
    started: Option<usize>,
    at: usize,
    ghost counted: { length counts.items ≡ length files.items + 1 },
    ghost some_piece: { 1 ≤ piece },
    ghost placed: { ForSome started (λ place. place < length files.items) },
}

impl MemoryFiles {
    /// Files as pairs of a name and its bytes; of several files of one name the first counts.
    ///
    /// Calls of `start_file` and `read` are numbered together from 0, and one whose number is in `fail` is `Failed`. A
    /// read gives at most `piece` bytes.
    pub fn new(
        alloc: Global,
        files: Vec<(Vec<u8>, Vec<u8>)>,
        fail: Vec<u32>,
        piece: u32,
    ) -> Result<MemoryFiles, Memory>
        requires { 1 ≤ piece }
        ensures missing { IfOk result (λ s.
            ⟦<MemoryFiles as Files>⟧.is_missing s ≡ is_missing_among files.items) }
        ensures contents { IfOk result (λ s.
            ⟦<MemoryFiles as Files>⟧.contents s ≡ contents_of files.items) }
        ensures none_started { IfOk result (λ s.
            (n : List ℕ) → ⟦<MemoryFiles as Files>⟧.is_started s n ≡ false) }
        ensures no_faults { IfOk result (λ s.
            (n : List ℕ) → ⟦<MemoryFiles as Files>⟧.faults s n ≡ 0) }
    {
        let counts = no_counts(alloc, files.len())?;
        Ok(MemoryFiles {
            files,
            fail,
            piece,
            calls: 0,
            counts,
            started: None,
            at: 0,
        })
    }

    // Whether the call that begins now is one that fails. It is counted.
    fn fails_now(&mut self) -> bool
        ensures { self.new ≡ record self.old { calls = self.new.calls } }
    {
        let call = self.calls;
        self.calls = call.saturating_add(1);
        is_listed(&self.fail, call)
    }
}

impl Files for MemoryFiles {
    ghost is_missing = { λ s. is_missing_among s.files.items };

    ghost contents = { λ s. contents_of s.files.items };

    ghost is_started = { λ s name. is_at s.started (place s.files.items name) };

    ghost left = { λ s. left_of s.files.items s.started s.at };

    ghost faults = { λ s. count_of s.files.items s.counts.items };

    fn start_file(&mut self, name: &[u8]) -> Result<(), Failed> {
        let fails = self.fails_now();
        let found = place_of(&self.files, name);
        if fails || found == self.files.len() {
            self.started = None;
            raise(&mut self.counts, found);
            return Err(Failed);
        }
        self.started = Some(found);
        self.at = 0;
        Ok(())
    }

    fn read(&mut self, into: &mut [u8]) -> Result<usize, Failed> {
        let fails = self.fails_now();
        let Some(started) = self.started else {
            return if fails { Err(Failed) } else { Ok(0) };
        };
        if fails {
            raise(&mut self.counts, started);
            return Err(Failed);
        }
        let bytes = bytes_of(&self.files, started);
        let (count, end) = copy_from(bytes, self.at, self.piece, into);
        self.at = end;
        Ok(count)
    }
}

/// Copies bytes from a place on, and gives their number and the place where they end.
pub(crate) fn copy_from(bytes: &[u8], at: usize, piece: u32, into: &mut [u8]) -> (usize, usize)
    requires { 1 ≤ piece }
    ensures bound { result.0 ≤ length into.new }
    ensures bytes { drop at bytes.now ≡ take result.0 into.new ++ drop result.1 bytes.now }
    ensures end { result.0 ≡ 0 → 0 < length into.new → drop result.1 bytes.now ≡ [] }
{
    if at >= bytes.len() {
        return (0, at);
    }
    let rest = &bytes[at..];
    let count = rest.len().min(into.len()).min(piece as usize);
    into[..count].copy_from_slice(&rest[..count]);
    (count, at + count)
}

fn is_listed(fail: &[u32], call: u64) -> bool {
    fail.iter().any(|number| u64::from(*number) == call)
}

// One more fault at a place.
fn raise(counts: &mut Vec<u64>, at: usize)
    requires { at < length counts.old.items }
    ensures length { length counts.new.items ≡ length counts.old.items }
    ensures rose { Rose (slice_index_or counts.old.items at 0)
        (slice_index_or counts.new.items at 0) }
    ensures later { (k : ℕ) → slice_index_or counts.old.items k 0
        ≤ slice_index_or counts.new.items k 0 }
{
    let count = counts[at].saturating_add(1);
    counts[at] = count;
}

/// The place of the first file of that name, or the number of files.
pub(crate) fn place_of(files: &[(Vec<u8>, Vec<u8>)], name: &[u8]) -> usize
    ensures place { result ≡ place files.now name.now }
    ensures bound { result ≤ length files.now }
{
    let mut at = 0;
    while at < files.len() {
        if files[at].0.as_slice() == name {
            return at;
        }
        at += 1;
    }
    files.len()
}

/// The bytes of the file at a place.
pub(crate) fn bytes_of(files: &[(Vec<u8>, Vec<u8>)], at: usize) -> &[u8]
    requires { at < length files.now }
    ensures { result.now ≡ bytes_at files.now at }
{
    &files[at].1
}

// A count of 0 for each file, and one for all other names.
fn no_counts(alloc: Global, files: usize) -> Result<Vec<u64>, Memory>
    ensures length { IfOk result (λ v. length v.items ≡ files + 1) }
    ensures zero { IfOk result (λ v. (k : ℕ) → slice_index_or v.items k 0 ≡ 0) }
{
    if files == usize::MAX {
        return Err(Memory);
    }
    match vec![in alloc; 0; files + 1] {
        Ok(counts) => Ok(counts),
        Err(_) => Err(Memory),
    }
}
