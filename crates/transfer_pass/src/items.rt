// The items of a morsel that a hand holds.
ghost use Rattle.std.specs.Prelude.{◌≡◌, ℕ, ◌<◌, ◌≤◌, All, length, take, true};
ghost use Rattle.transfer_core.specs.Actors.{HasSeen, is_listed};
ghost use Rattle.transfer_core.specs.Plans.{HasPlace, place_at, shape_of, words_of};
ghost use Rattle.filter_board.specs.Runs.{MayPut};
ghost use Rattle.filter_board.specs.Views.{job_in, shape_in};
ghost use Rattle.transfer_pass.specs.Work.{AreReads, EachIn, HasSeenWriter, IsChunk, IsHeld, KeepsListed, ListsPuts};
ghost use Rattle.transfer_pass.specs.Work.{answers_sealed, passes_sealed, passing_items, with_puts};

use filter_board::{Board, Hand};
use key_codes::{Place, Placement};
use transfer_core::{Plan, Port};

/// How many items a chunk has at most: as many as one word has bits. So where a region has a bit for each item, in order, a chunk
/// that begins at a multiple of it is put in one step.
pub(crate) const CHUNK: usize = 64;

/// Puts the items of a chunk that pass, out of the morsel that the hand holds, into each region that their pipe writes. The
/// chunk's items are numbered from `from` on, to the one before `to`. The pipe reads by these ports, and writes by so many.
pub(crate) fn work_chunk<P: Placement + Drop>(
    board: &Board<P>,
    hand: &mut Hand,
    pipe: u32,
    reads: &[Port],
    writes: u32,
    from: u32,
    to: u32,
)
    requires own { hand.old.of ≡ board.now.of }
    requires chunk { IsChunk from to }
    requires reads { AreReads (shape_in P.seen board.now) pipe reads.now }
    requires writes { writes ≡ (job_in P.seen board.now).ports pipe }
    requires items { EachIn from to (IsHeld (job_in P.seen board.now) pipe hand.old.actor) }
    requires places { EachIn from to (λ i. All (HasPlace (shape_in P.seen board.now) i) reads.now) }
    requires seen { All (HasSeenWriter (job_in P.seen board.now) hand.old.actor) reads.now }
    ensures same { hand.new ≡ with_puts hand.new.actor.puts hand.old }
    ensures keeps { KeepsListed hand.old.actor.puts hand.new.actor.puts }
    ensures listed { EachIn from to (ListsPuts (job_in P.seen board.now) pipe hand.new.actor.puts) }
{
    let mut buffer = [0u32; CHUNK];
    let count = gather(board, hand, reads, from, to, &mut buffer);
    put_everywhere(board, hand, pipe, writes, &buffer[..count]);
}

// Writes the items of a chunk that pass, in order, to the front of a buffer, and tells how many they are.
fn gather<P: Placement + Drop>(
    board: &Board<P>,
    hand: &mut Hand,
    reads: &[Port],
    from: u32,
    to: u32,
    buffer: &mut [u32; CHUNK],
) -> usize
    requires own { hand.old.of ≡ board.now.of }
    requires chunk { IsChunk from to }
    requires places { EachIn from to (λ i. All (HasPlace (shape_in P.seen board.now) i) reads.now) }
    requires seen { All (HasSeenWriter (job_in P.seen board.now) hand.old.actor) reads.now }
    ensures same { hand.new ≡ hand.old }
    ensures count { result ≤ 64 }
    ensures passing { take result buffer.new
        ≡ passing_items (shape_in P.seen board.now) reads.now from to }
{
    let mut count = 0;
    for item in from..to {
        if passes(board, hand, reads, item) {
            buffer[count] = item;
            count += 1;
        }
    }
    count
}

// An item passes where the region of each port by which its pipe reads answers yes for it.
fn passes<P: Placement + Drop>(board: &Board<P>, hand: &mut Hand, reads: &[Port], item: u32) -> bool
    requires own { hand.old.of ≡ board.now.of }
    requires places { All (HasPlace (shape_in P.seen board.now) item) reads.now }
    requires seen { All (HasSeenWriter (job_in P.seen board.now) hand.old.actor) reads.now }
    ensures same { hand.new ≡ hand.old }
    ensures passes { result ≡ passes_sealed (shape_in P.seen board.now) item reads.now }
{
    for i in 0..reads.len() {
        if !answers(board, hand, reads[i], item) {
            return false;
        }
    }
    true
}

// Whether the region of a port answers yes for an item.
fn answers<P: Placement + Drop>(board: &Board<P>, hand: &mut Hand, port: Port, item: u32) -> bool
    requires own { hand.old.of ≡ board.now.of }
    requires place { HasPlace (shape_in P.seen board.now) item port }
    requires seen { HasSeenWriter (job_in P.seen board.now) hand.old.actor port }
    ensures same { hand.new ≡ hand.old }
    ensures answers { result ≡ answers_sealed (shape_in P.seen board.now) item port }
{
    let place = place_in(board.plan(), port, item);
    board.tests(hand, port.region, &place)
}

// The place of an item in the region of a port.
fn place_in<P: Placement>(plan: &Plan<P>, port: Port, item: u32) -> Place
    requires { HasPlace (shape_of P.seen plan.now) item port }
    ensures place { result ≡ place_at (shape_of P.seen plan.now) port item }
    ensures inside { result.word < words_of (shape_of P.seen plan.now) port.region }
{
    let words = plan.words.as_slice()[port.region as usize];
    plan.places.as_slice()[port.places as usize].place(item, words)
}

// Puts items that pass by each port by which their pipe writes.
fn put_everywhere<P: Placement + Drop>(
    board: &Board<P>,
    hand: &mut Hand,
    pipe: u32,
    writes: u32,
    items: &[u32],
)
    requires own { hand.old.of ≡ board.now.of }
    requires items { (q : ℕ) → q < writes
        → All (MayPut (job_in P.seen board.now) pipe q hand.old.actor) items.now }
    ensures same { hand.new ≡ with_puts hand.new.actor.puts hand.old }
    ensures keeps { KeepsListed hand.old.actor.puts hand.new.actor.puts }
    ensures listed { (q : ℕ) → q < writes
        → All (λ i. is_listed i q hand.new.actor.puts ≡ true) items.now }
{
    for port in 0..writes {
        board.put_all(hand, pipe, port, items);
    }
}
