// Whether a hand may draw from a pipe.
ghost use Rattle.std.specs.Prelude.{◌≡◌, ◌↔◌, ◌<◌, IsTrue, length};
ghost use Rattle.transfer_core.specs.Job.{writer, writes_region};
ghost use Rattle.transfer_core.specs.Actors.{is_marked};
ghost use Rattle.transfer_core.specs.Sound.{HasSeenReads};
ghost use Rattle.transfer_core.specs.States.{are_writers_marked};
ghost use Rattle.filter_board.specs.Views.{job_in};

use crate::board::Board;
use crate::hand::Hand;
use key_codes::Placement;
use transfer_core::limits::MAX_PIPES;
use transfer_core::{Pipe, Port};

impl<P: Placement + Drop> Board<P> {
    /// Whether the hand has seen full each pipe that this one reads from, so that it may draw from it. It makes no step.
    pub fn may_draw(&self, hand: &Hand, pipe: u32) -> bool
        requires { pipe < length self.now.plan.pipes }
        ensures { IsTrue result ↔ HasSeenReads (job_in P.seen self.now) pipe hand.now.actor }
    {
        let pipes = self.setup.plan.pipes.as_slice();
        let reads = pipes[pipe as usize].reads.as_slice();
        are_seen(&hand.seen, pipes, reads)
    }
}

// Whether the pipes that write what these ports read are marked.
fn are_seen(seen: &[bool; MAX_PIPES], pipes: &[Pipe], reads: &[Port]) -> bool
    ensures { result ≡ are_writers_marked seen.now pipes.now reads.now }
{
    reads
        .iter()
        .all(|port| is_seen(seen, writer(pipes, port.region)))
}

// Whether a pipe is marked.
fn is_seen(seen: &[bool; MAX_PIPES], pipe: usize) -> bool
    ensures { result ≡ is_marked seen.now pipe }
{
    pipe < MAX_PIPES && seen[pipe]
}

// The number of the pipe that writes a region.
fn writer(pipes: &[Pipe], region: u32) -> usize
    ensures { result ≡ writer pipes.now region }
{
    for i in 0..pipes.len() {
        if writes(&pipes[i], region) {
            return i;
        }
    }
    pipes.len()
}

// Whether a pipe writes a region.
fn writes(pipe: &Pipe, region: u32) -> bool
    ensures { result ≡ writes_region region pipe.now.writes }
{
    pipe.writes
        .as_slice()
        .iter()
        .any(|port| port.region == region)
}
