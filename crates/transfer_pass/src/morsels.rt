// The morsels of a pipe that a worker draws.
ghost use Rattle.std.specs.Prelude.{◌≡◌, ℕ, ◌<◌, length};
ghost use Rattle.transfer_core.specs.Actors.{Holds, holding, with_finished};
ghost use Rattle.transfer_core.specs.Sound.{HasSeenReads};
ghost use Rattle.filter_board.specs.Shares.{IsTold};
ghost use Rattle.filter_board.specs.Views.{job_in, with_actor};
ghost use Rattle.transfer_pass.specs.Rounds.{IsFree};

use crate::items::{CHUNK, work_chunk};
use filter_board::{Board, Hand};
use key_codes::Placement;

/// Works on a pipe until no morsel of it is left to draw.
pub(crate) fn work_pipe<P: Placement + Drop>(board: &Board<P>, hand: &mut Hand, pipe: u32)
    requires free { IsFree board.now.of hand.old }
    requires pipe { pipe < length board.now.plan.pipes }
    requires seen { HasSeenReads (job_in P.seen board.now) pipe hand.old.actor }
    ensures free { IsFree board.now.of hand.new }
    ensures parts { hand.new.parts ≡ hand.old.parts }
    ensures seen { hand.new.actor.seen ≡ hand.old.actor.seen }
    ensures told { IsTold hand.new.told pipe }
    ensures keeps { (p : ℕ) → IsTold hand.old.told p → IsTold hand.new.told p }
{
    while let Some(morsel) = board.draw(hand, pipe) {
        work_morsel(board, hand, pipe, morsel);
    }
}

// Works on the items of a morsel that the hand holds, chunk by chunk, and finishes it. The pipe is looked up once, and not for each
// item.
fn work_morsel<P: Placement + Drop>(board: &Board<P>, hand: &mut Hand, pipe: u32, morsel: u32)
    requires own { hand.old.of ≡ board.now.of }
    requires pipe { pipe < length board.now.plan.pipes }
    requires morsel { morsel < (job_in P.seen board.now).morsels pipe }
    requires holds { Holds hand.old.actor pipe morsel }
    requires seen { HasSeenReads (job_in P.seen board.now) pipe hand.old.actor }
    ensures { hand.new ≡ with_actor (with_finished (holding pipe morsel)) hand.old }
{
    let plan = board.plan();
    let from = &plan.pipes.as_slice()[pipe as usize];
    let items = from.items;
    let reads = from.reads.as_slice();
    let writes = from.writes.as_slice().len() as u32;
    let start = morsel * plan.morsel;
    let end = start + plan.morsel.min(items - start);
    let mut next = start;
    'chunks: while next < end {
        let stop = next + (end - next).min(CHUNK as u32);
        work_chunk(board, hand, pipe, reads, writes, next, stop);
        next = stop;
    }
    board.finish(hand, pipe);
}
