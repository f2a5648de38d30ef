// The hands of the workers, between rounds.
ghost use Rattle.std.specs.Prelude.{◌≡◌, ℕ, ◌+◌, ◌-◌, ◌<◌, ◌≤◌, [], length, true, All, vec_capacity};
ghost use Rattle.transfer_core.specs.Actors.{HasSeen};
ghost use Rattle.filter_board.specs.Shares.{IsTold, parts_of};
ghost use Rattle.transfer_pass.specs.Rounds.{HasSeenFirst, IsFree, IsToldFirst, all_parts, with_marks};

use filter_board::{Board, Hand};
use key_codes::Placement;

/// Makes all hands one. The list is empty then, and keeps its room.
pub(crate) fn join_all<P: Placement + Drop>(board: &Board<P>, hands: &mut Vec<Hand>) -> Hand
    requires some { 0 < length hands.old.items }
    requires free { All (IsFree board.now.of) hands.old.items }
    ensures free { IsFree board.now.of result }
    ensures parts { result.parts ≡ all_parts hands.old.items }
    ensures told { (n : ℕ) → All (IsToldFirst n) hands.old.items → IsToldFirst n result }
    ensures empty { hands.new.items ≡ [] }
    ensures room { vec_capacity hands.new ≡ vec_capacity hands.old }
{
    let Some(mut all) = hands.pop() else {
        unreachable!()
    };
    while let Some(hand) = hands.pop() {
        all = board.join_hands(all, hand);
    }
    all
}

/// Asks of each pipe whether it is full, and tells whether all are. The hand is the only one.
pub(crate) fn sees_all<P: Placement + Drop>(board: &Board<P>, hand: &mut Hand) -> bool
    requires free { IsFree board.now.of hand.old }
    requires alone { hand.old.parts ≡ parts_of board.now.workers }
    ensures same { hand.new ≡ with_marks hand.new.actor.seen hand.old }
    ensures seen { (p : ℕ) → p < length board.now.plan.pipes
        → IsTold hand.old.told p → HasSeen hand.new.actor p }
    ensures all { result ≡ true → HasSeenFirst (length board.now.plan.pipes) hand.new }
    ensures told { IsToldFirst (length board.now.plan.pipes) hand.old → result ≡ true }
{
    let pipes = board.plan().pipes.as_slice().len() as u32;
    let mut all = true;
    for pipe in 0..pipes {
        let full = board.sees_full(hand, pipe);
        all = all && full;
    }
    all
}

/// Splits a hand into so many, in an empty list that has the room for them. Each but one gets one part.
pub(crate) fn split_into<P: Placement + Drop>(
    board: &Board<P>,
    hand: Hand,
    count: usize,
    hands: &mut Vec<Hand>,
)
    requires free { IsFree board.now.of hand }
    requires parts { (0 < count) × (count ≤ hand.parts) }
    requires list { (hands.old.items ≡ []) × (count ≤ vec_capacity hands.old) }
    ensures count { length hands.new.items ≡ count }
    ensures room { vec_capacity hands.new ≡ vec_capacity hands.old }
    ensures free { All (IsFree board.now.of) hands.new.items }
    ensures parts { all_parts hands.new.items ≡ hand.parts }
    ensures seen { All (λ h. h.actor.seen ≡ hand.actor.seen) hands.new.items }
{
    let mut rest = hand;
    for _ in 1..count {
        let (left, one) = board.split_hand(rest, 1);
        hands.push_reserved(one);
        rest = left;
    }
    hands.push_reserved(rest);
}
