// A worker's pass to a board.
ghost use Rattle.std.specs.Prelude.{◌≡◌, ◌<◌, []};
ghost use Rattle.filter_board.specs.Shares.{fresh};
ghost use Rattle.filter_board.specs.Views.{hand_of};

use crate::share::Share;
use atomic_table::Seat;
use std::marker::Model;
use transfer_core::limits::MAX_PIPES;

/// One worker's pass to a board. Contracts see which board it is one of; what it knows, as an actor of the core over steps: the
/// morsel that it holds with the puts for it, the morsels that it has finished, and which pipes it has seen full; for each pipe
/// whether it was told that no morsel is left; its parts, at least one; and the number that it carries for its user.
///
/// A hand that has all parts of its board is the only one.
#[derive(Drop)]
pub struct Hand {
    pub(crate) seat: Seat<(), Share>,
    pub(crate) seen: [bool; MAX_PIPES],
    pub(crate) told: [bool; MAX_PIPES],
    pub(crate) worker: u32,
}

impl Model for Hand {
    ghost use Rattle.filter_board.specs.Views.{HandView, IsHand, hand_of};

    ghost Value = { HandView };

    ghost view = { λ h. hand_of h.seat.table_id h.seat.me.0 h.worker };

    ghost invariant = { λ h. IsHand h.seen h.told h.seat.me };
}

impl Hand {
    /// The hand of a seat that has made no step.
    pub(crate) fn of(seat: Seat<(), Share>) -> Hand
        requires new { seat.me ≡ (fresh seat.me.0.parts, []) }
        requires part { 0 < seat.me.0.parts }
        ensures { result ≡ hand_of seat.table_id (fresh seat.me.0.parts) 0 }
    {
        Hand {
            seat,
            seen: [false; MAX_PIPES],
            told: [false; MAX_PIPES],
            worker: 0,
        }
    }

    /// Gives the hand a number for its user. It is no step, and changes nothing else of the hand.
    pub fn set_worker(&mut self, worker: u32)
        ensures { self.new ≡ record self.old { worker = worker } }
    {
        self.worker = worker;
    }

    /// The number that was last set, 0 at first. No step changes it.
    pub fn worker(&self) -> u32
        ensures number { result ≡ self.now.worker }

        // So it is with each hand.
        ensures part { 0 < self.now.parts }
    {
        self.worker
    }
}
