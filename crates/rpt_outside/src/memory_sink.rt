// A sink in memory, whose puts fail by number.
ghost use Rattle.std.specs.Prelude.{◌≡◌, ◌+◌, ◌≤◌, [], ◌++◌, length, Some, IfOk, vec_len, vec_capacity};
ghost use Rattle.rpt_outside.specs.Causes.{AppendsPart};

use crate::traits::{Failed, Sink};
use rpt_base::Memory;
use std::alloc::Global;

/// A sink with a fixed room, which tells what it took. Its memory is taken as it is made, so that puts need none.
///
/// A put past the room takes what fits and is `Failed`.
#[derive(Drop)]
pub struct MemorySink {
    held: Vec<u8>,
    room: u32,
    fail: Vec<(u32, u32)>,
    puts: u64,
    faults: u64,
    ghost fits: { vec_len held ≤ room },
    ghost reserved: { room ≤ vec_capacity held },
}

impl MemorySink {
    /// An empty sink for `room` bytes.
    ///
    /// Puts are numbered from 0. One whose number is the first of a pair in `fail` takes as many bytes as the second
    /// says, at most the piece and what fits in the room, and is `Failed`. Of several pairs with that number the first
    /// counts.
    pub fn new(alloc: Global, room: u32, fail: Vec<(u32, u32)>) -> Result<MemorySink, Memory>
        ensures taken { IfOk result (λ s. ⟦<MemorySink as Sink>⟧.taken s ≡ Some []) }
        ensures no_faults { IfOk result (λ s. ⟦<MemorySink as Sink>⟧.faults s ≡ 0) }
    {
        let Ok(held) = Vec::with_capacity(alloc, room as usize) else {
            return Err(Memory);
        };
        Ok(MemorySink {
            held,
            room,
            fail,
            puts: 0,
            faults: 0,
        })
    }

    /// All bytes that were taken, in order.
    pub fn bytes(&self) -> &[u8]
        ensures { Some result.now ≡ ⟦<MemorySink as Sink>⟧.taken self.now }
    {
        &self.held
    }
}

impl Sink for MemorySink {
    ghost taken = { λ s. Some s.held.items };

    ghost faults = { λ s. s.faults };

    fn put(&mut self, piece: &[u8]) -> Result<(), Failed> {
        let listed = listed_for(&self.fail, self.puts);
        self.puts = self.puts.saturating_add(1);
        let wanted = match listed {
            Some(count) => piece.len().min(count as usize),
            None => piece.len(),
        };
        let count = wanted.min(self.room as usize - self.held.len());
        take_front(&mut self.held, piece, count);
        if listed.is_none() && count == piece.len() {
            return Ok(());
        }
        self.faults = self.faults.saturating_add(1);
        Err(Failed)
    }
}

// Takes the first bytes of a piece, which fit in the memory that is held already.
fn take_front(held: &mut Vec<u8>, piece: &[u8], count: usize)
    requires within { count ≤ length piece.now }
    requires fits { vec_len held.old + count ≤ vec_capacity held.old }
    ensures length { vec_len held.new ≡ vec_len held.old + count }
    ensures capacity { vec_capacity held.old ≤ vec_capacity held.new }
    ensures part { AppendsPart (Some held.old.items) (Some held.new.items) piece.now }
    ensures whole { count ≡ length piece.now → held.new.items ≡ held.old.items ++ piece.now }
{
    let Ok(()) = held.extend_from_slice(&piece[..count]) else {
        unreachable!()
    };
}

// How many bytes the put of that number takes as it fails; none, where it isn't listed.
fn listed_for(fail: &[(u32, u32)], put: u64) -> Option<u32> {
    for (number, count) in fail {
        if u64::from(*number) == put {
            return Some(*count);
        }
    }
    None
}
