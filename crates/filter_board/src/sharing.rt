// Hands that are split and joined.
ghost use Rattle.std.specs.Prelude.{◌≡◌, ◌+◌, ◌-◌, ◌<◌, [], length};
ghost use Rattle.transfer_core.specs.Actors.{HoldsNone};
ghost use Rattle.filter_board.specs.Shares.{AreApart, HasFinishedOnce, either};
ghost use Rattle.filter_board.specs.Shares.{joined_actor, less, piece, piece_actor};

use crate::board::Board;
use crate::hand::Hand;
use crate::rule::{About, Joins, Shows, Splits};
use crate::share::Share;
use atomic_table::Seat;
use key_codes::Placement;
use std::marker::Brand;
use transfer_core::limits::MAX_PIPES;

impl<P: Placement + Drop> Board<P> {
    /// Gives some of a hand's parts to a second hand, which has finished no morsel. Both know which pipes the hand has seen full, and
    /// from which it was told that no morsel is left.
    pub fn split_hand(&self, hand: Hand, parts: u64) -> (Hand, Hand)
        requires own { hand.of ≡ self.now.of }
        requires free { HoldsNone hand.actor }
        requires parts { (0 < parts) × (parts < hand.parts) }
        ensures first { result.0 ≡ record hand { parts = hand.parts - parts } }
        ensures second { result.1 ≡ record hand { actor = piece_actor hand.actor; parts = parts } }
    {
        let Hand {
            mut seat,
            seen,
            told,
            worker,
        } = hand;
        let other = self.split_as::<Brand>(&mut seat, parts);
        (
            Hand {
                seat,
                seen,
                told,
                worker,
            },
            Hand {
                seat: other,
                seen,
                told,
                worker,
            },
        )
    }

    fn split_as<C: About>(&self, seat: &mut Seat<(), Share>, parts: u64) -> Seat<(), Share>
        requires about { C.parts ≡ parts }
        requires own { seat.old.table_id ≡ self.now.of }
        requires free { HoldsNone seat.old.me.0.actor }
        requires parts { (0 < parts) × (parts < seat.old.me.0.parts) }
        ensures own { seat.new.table_id ≡ seat.old.table_id }
        ensures first { seat.new.me ≡ (less parts seat.old.me.0, seat.old.me.1) }
        ensures other { result.table_id ≡ seat.old.table_id }
        ensures second { result.me ≡ (piece parts seat.old.me.0, []) }
    {
        self.table.shared.split_seat::<Splits<C>>(seat)
    }

    /// Joins two hands, which have finished no morsel in common. The joined hand has seen full what either has, and was told what
    /// either was told. It keeps the first one's number.
    pub fn join_hands(&self, first: Hand, second: Hand) -> Hand
        requires own { (first.of ≡ self.now.of) × (second.of ≡ self.now.of) }
        requires free { HoldsNone first.actor × HoldsNone second.actor }
        ensures apart { AreApart (length self.now.plan.pipes) first.actor second.actor }
        ensures joined { result ≡ record first {
          actor = joined_actor first.actor second.actor;
          told = either first.told second.told;
          parts = first.parts + second.parts;
        } }
    {
        let Hand {
            mut seat,
            seen,
            told,
            worker,
        } = first;
        let Hand {
            seat: other,
            seen: other_seen,
            told: other_told,
            worker: _,
        } = second;
        self.table.shared.join_seat::<Joins>(&mut seat, other);
        self.show_as::<Brand>(&mut seat);
        Hand {
            seat,
            seen: in_either(seen, other_seen),
            told: in_either(told, other_told),
            worker,
        }
    }

    // The seat has finished no morsel twice.
    fn show_as<C: About>(&self, seat: &mut Seat<(), Share>)
        requires about { C.pipe ≡ length self.now.plan.pipes }
        requires own { seat.old.table_id ≡ self.now.of }
        ensures own { seat.new.table_id ≡ seat.old.table_id }
        ensures same { seat.new.me ≡ seat.old.me }
        ensures once { HasFinishedOnce (length self.now.plan.pipes) seat.old.me.0.actor }
    {
        self.table.shared.load::<Shows<C>>(seat, 0);
    }
}

// The marks of either list.
fn in_either(first: [bool; MAX_PIPES], second: [bool; MAX_PIPES]) -> [bool; MAX_PIPES]
    ensures { result ≡ either first second }
{
    let mut all = first;
    for pipe in 0..MAX_PIPES {
        all[pipe] = first[pipe] || second[pipe];
    }
    all
}
