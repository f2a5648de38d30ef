// The end of a board.
ghost use Rattle.std.specs.Prelude.{◌≡◌, ℕ, ◌+◌, ◌<◌, ◌≤◌, length, slice_index};
ghost use Rattle.std.specs.Slots.{IsFull, slots_items, slots_len};
ghost use Rattle.transfer_core.specs.Actors.{HasSeen};
ghost use Rattle.transfer_core.specs.Plans.{shape_of};
ghost use Rattle.transfer_core.specs.Words.{sealed_words};

use crate::board::Board;
use crate::hand::Hand;
use crate::setup::Setup;
use atomic_table::Closed;
use key_codes::Placement;
use std::alloc::Global;
use transfer_core::{Plan, Sealed};

impl<P: Placement + Drop> Board<P> {
    /// The sealed regions, and the plan. The hand has to have seen every pipe full.
    pub fn close(self, hand: Hand) -> (Sealed, Plan<P>)
        requires own { hand.of ≡ self.of }
        requires seen { (p : ℕ) → p < length self.plan.pipes → HasSeen hand.actor p }
        ensures sealed { result.0 ≡ sealed_words (shape_of P.seen self.plan) }
        ensures plan { result.1 ≡ self.plan }
    {
        let Board {
            table,
            setup,
            starts,
            mut rooms,
        } = self;
        let Setup { plan, workers: _ } = setup;
        let Hand {
            seat,
            seen: _,
            told: _,
            worker: _,
        } = hand;
        let pipes = plan.pipes.as_slice().len();
        let closed = table.close_with(seat);
        for region in 0..rooms.len() {
            let first = 2 * pipes + starts[region];
            copy_words(&closed, first, rooms[region].as_mut_slice());
        }
        closed.free();
        (Sealed::of(rooms), plan)
    }
}

// Copies the words of a region, of which the first stands at `first`.
fn copy_words(closed: &Closed<(), Global>, first: usize, region: &mut [u64])
    requires full { IsFull closed.now.words }
    requires inside { first + length region.old ≤ slots_len closed.now.words }
    ensures { (k : ℕ) → k < length region.new
        → slice_index region.new k ≡ slice_index (slots_items closed.now.words) (first + k) }
{
    for place in 0..region.len() {
        region[place] = closed.word(first + place);
    }
}
