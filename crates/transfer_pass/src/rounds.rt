// The rounds of the workers.
ghost use Rattle.std.specs.Prelude.{◌≡◌, ℕ, ◌+◌, ◌<◌, All, length};
ghost use Rattle.transfer_core.specs.Plans.{shape_of};
ghost use Rattle.transfer_core.specs.Sound.{HasSeenReads};
ghost use Rattle.transfer_plan.specs.Kept.{sealed_run};
ghost use Rattle.filter_board.specs.Shares.{IsTold, parts_of};
ghost use Rattle.filter_board.specs.Views.{job_in};
ghost use Rattle.transfer_pass.specs.Rounds.{HasSeenFirst, IsFree, IsToldFirst, IsToldNext, KeepsSeen, all_parts, with_marks};

use crate::hands::{join_all, sees_all, split_into};
use crate::kept::TransferRun;
use crate::morsels::work_pipe;
use filter_board::{Board, Hand};
use key_codes::Placement;
use rpt_outside::Gate;
use std::hint::spin_loop;
use std::thread;
use std::thread::Threads;

// How often a worker looks whether a pipe is full before it leaves the pipe to the next round: about as long as another worker
// takes for a morsel.
const LOOKS: u32 = 1024;

/// Seals all regions of the board's plan, by as many workers as there are hands, which are all hands of the board. A worker's
/// number is the place of its hand in the list, from 0.
///
/// Each worker passes the gate as a round begins, rounds from 0. There are at most as many rounds as pipes, and none where no pipe
/// has an item. Whatever the gate does, and whichever worker steps when, the run is the sealed one.
pub fn run<P: Placement + Send + Sync + Drop, R: Threads + Sync, G: Gate + Sync>(
    rt: &R,
    board: Board<P>,
    hands: Vec<Hand>,
    gate: &G,
) -> TransferRun
    requires free { All (IsFree board.of) hands.items }
    requires parts { all_parts hands.items ≡ parts_of board.workers }
    requires few { length hands.items < 4294967295 }
    ensures { result ≡ sealed_run (shape_of P.seen board.plan) }
{
    // Its clause says that there is a worker, so that there are parts for as many hands.
    let _plan = board.plan();
    let count = hands.len();
    let mut hands = hands;
    let mut all = join_all(&board, &mut hands);
    let mut round = 0;
    'rounds: while !sees_all(&board, &mut all) {
        split_into(&board, all, count, &mut hands);
        work_all(rt, &board, hands.as_mut_slice(), gate, round);
        all = join_all(&board, &mut hands);
        round += 1;
    }
    let (sealed, plan) = board.close(all);
    TransferRun::of(sealed, plan)
}

// One round of all workers.
fn work_all<P: Placement + Send + Sync + Drop, R: Threads + Sync, G: Gate + Sync>(
    rt: &R,
    board: &Board<P>,
    hands: &mut [Hand],
    gate: &G,
    round: u32,
)
    requires free { All (IsFree board.now.of) hands.old }
    requires few { length hands.old < 4294967295 }
    ensures free { All (IsFree board.now.of) hands.new }
    ensures parts { all_parts hands.new ≡ all_parts hands.old }
    ensures told { (n : ℕ) → n < length board.now.plan.pipes → All (HasSeenFirst n) hands.old
        → All (IsToldFirst (n + 1)) hands.new }
{
    let threads = hands.len().max(1);
    thread::for_each_mut(
        rt,
        hands,
        threads,
        &|worker, hand: &mut Hand|
            requires free { IsFree board.now.of hand.old }
            requires worker { worker < 4294967295 }
            ensures free { IsFree board.entry.now.of hand.new }
            ensures parts { hand.new.parts ≡ hand.old.parts }
            ensures told { IsToldNext (length board.entry.now.plan.pipes) hand.old hand.new }
        {
            work_round(board, hand, gate, round, worker as u32);
        },
    );
}

// One round of one worker. Who has seen the first pipes full is told that no morsel is left of the next one.
fn work_round<P: Placement + Drop, G: Gate>(
    board: &Board<P>,
    hand: &mut Hand,
    gate: &G,
    round: u32,
    worker: u32,
)
    requires free { IsFree board.now.of hand.old }
    ensures free { IsFree board.now.of hand.new }
    ensures parts { hand.new.parts ≡ hand.old.parts }
    ensures told { IsToldNext (length board.now.plan.pipes) hand.old hand.new }
{
    gate.pass(round, worker);
    let pipes = board.plan().pipes.as_slice().len() as u32;
    for pipe in 0..pipes {
        if !board.may_draw(hand, pipe) {
            look_before(board, hand, pipe);
        }
        work_if_ready(board, hand, pipe);
    }
}

// Works on a pipe if the hand has seen full what the pipe reads from.
fn work_if_ready<P: Placement + Drop>(board: &Board<P>, hand: &mut Hand, pipe: u32)
    requires free { IsFree board.now.of hand.old }
    requires pipe { pipe < length board.now.plan.pipes }
    ensures free { IsFree board.now.of hand.new }
    ensures parts { hand.new.parts ≡ hand.old.parts }
    ensures seen { hand.new.actor.seen ≡ hand.old.actor.seen }
    ensures told { HasSeenReads (job_in P.seen board.now) pipe hand.old.actor
        → IsTold hand.new.told pipe }
    ensures keeps { (p : ℕ) → IsTold hand.old.told p → IsTold hand.new.told p }
{
    if board.may_draw(hand, pipe) {
        work_pipe(board, hand, pipe);
    }
}

// Looks for the pipes before this one, in order, until one doesn't become full in time.
fn look_before<P: Placement + Drop>(board: &Board<P>, hand: &mut Hand, pipe: u32)
    requires own { hand.old.of ≡ board.now.of }
    requires pipe { pipe < length board.now.plan.pipes }
    ensures same { hand.new ≡ with_marks hand.new.actor.seen hand.old }
    ensures seen { KeepsSeen hand.old hand.new }
{
    for before in 0..pipe {
        if !look_for(board, hand, before) {
            return;
        }
    }
}

// Looks whether a pipe is full, so often at most.
fn look_for<P: Placement + Drop>(board: &Board<P>, hand: &mut Hand, pipe: u32) -> bool
    requires own { hand.old.of ≡ board.now.of }
    requires pipe { pipe < length board.now.plan.pipes }
    ensures same { hand.new ≡ with_marks hand.new.actor.seen hand.old }
    ensures seen { KeepsSeen hand.old hand.new }
{
    for _ in 0..LOOKS {
        if board.sees_full(hand, pipe) {
            return true;
        }
        spin_loop();
    }
    false
}
