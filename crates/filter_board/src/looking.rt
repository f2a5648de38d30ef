// Looks: whether a pipe is full, and what a full pipe's regions answer.
ghost use Rattle.std.specs.Prelude.{◌≡◌, ℕ, ◌+◌, ◌<◌, ◌≤◌, false, length, true};
ghost use Rattle.transfer_core.specs.Actors.{HasSeen, HoldsNone, with_seen};
ghost use Rattle.transfer_core.specs.Job.{IsWord};
ghost use Rattle.transfer_core.specs.Sealed.{sealed};
ghost use Rattle.filter_board.specs.Layout.{index_of};
ghost use Rattle.filter_board.specs.Shares.{IsTold, after_look, parts_of};
ghost use Rattle.filter_board.specs.Views.{IsAloneAtEnd, answers_place, job_in, shape_in, with_actor};

use crate::board::Board;
use crate::hand::Hand;
use crate::rule::{About, Looks, Sees};
use crate::share::Share;
use atomic_table::Seat;
use key_codes::{Place, Placement};
use std::marker::Brand;

impl<P: Placement + Drop> Board<P> {
    /// Whether all morsels of a pipe are finished. `false` comes only where the counter of finished morsels that was read at this step
    /// was below their number. `true` stays known to the hand.
    pub fn sees_full(&self, hand: &mut Hand, pipe: u32) -> bool
        requires own { hand.old.of ≡ self.now.of }
        requires pipe { pipe < length self.now.plan.pipes }
        ensures full { result ≡ true → hand.new ≡ with_actor (with_seen pipe) hand.old }
        ensures known { result ≡ true → HasSeen hand.new.actor pipe }
        ensures not_full { result ≡ false → hand.new ≡ hand.old }
        ensures stays { HasSeen hand.old.actor pipe → result ≡ true }
        ensures keeps { (p : ℕ) → HasSeen hand.old.actor p → HasSeen hand.new.actor p }

        // Who has all of the board's parts, holds nothing and was told that no morsel is left has finished the last one.
        ensures alone { IsAloneAtEnd self.now pipe hand.old → result ≡ true }
    {
        let morsels = self.morsels(pipe);
        if hand.seen[pipe as usize] {
            return true;
        }
        let at = self.setup.plan.pipes.as_slice().len() + pipe as usize;
        let found = self.see_as::<Brand>(&mut hand.seat, pipe, morsels, at);
        if found < morsels {
            false
        } else {
            hand.seen[pipe as usize] = true;
            true
        }
    }

    fn see_as<C: About>(
        &self,
        seat: &mut Seat<(), Share>,
        pipe: u32,
        morsels: u64,
        at: usize,
    ) -> u64
        requires about { (C.pipe ≡ pipe) × (C.morsels ≡ morsels) }
        requires parts { C.parts ≡ parts_of self.now.workers }
        requires own { seat.old.table_id ≡ self.now.of }
        requires pipe { pipe < length self.now.plan.pipes }
        requires morsels { morsels ≡ (job_in P.seen self.now).morsels pipe }
        requires at { at ≡ length self.now.plan.pipes + pipe }
        requires part { 0 < seat.old.me.0.parts }
        ensures own { seat.new.table_id ≡ seat.old.table_id }
        ensures me { seat.new.me ≡ (after_look pipe morsels seat.old.me.0 result, seat.old.me.1) }
        ensures alone { seat.old.me.0.parts ≡ parts_of self.now.workers
            → HoldsNone seat.old.me.0.actor → IsTold seat.old.me.0.told pipe → morsels ≤ result }
    {
        self.table.shared.load::<Sees<C>>(seat, at)
    }

    /// Whether a region of a pipe that the hand has seen full answers yes for a place. The answer is the sealed region's.
    pub fn tests(&self, hand: &mut Hand, region: u32, place: &Place) -> bool
        requires own { hand.old.of ≡ self.now.of }
        requires word { IsWord (job_in P.seen self.now) region place.now.word }
        requires seen { HasSeen hand.old.actor ((job_in P.seen self.now).owner region) }
        ensures same { hand.new ≡ hand.old }
        ensures answer { result ≡ answers_place (shape_in P.seen self.now) region place.now }
    {
        let at = self.at(region, place.word);
        let word = self.look_as::<Brand>(&mut hand.seat, region, place.word, at);
        word & place.mask == place.mask
    }

    fn look_as<C: About>(
        &self,
        seat: &mut Seat<(), Share>,
        region: u32,
        word: u32,
        at: usize,
    ) -> u64
        requires about { C.sealed ≡ sealed (shape_in P.seen self.now) region word }
        requires own { seat.old.table_id ≡ self.now.of }
        requires word { IsWord (job_in P.seen self.now) region word }
        requires at { at ≡ index_of (shape_in P.seen self.now) region word }
        requires seen { HasSeen seat.old.me.0.actor ((job_in P.seen self.now).owner region) }
        ensures own { seat.new.table_id ≡ seat.old.table_id }
        ensures same { seat.new.me ≡ seat.old.me }
        ensures sealed { result ≡ sealed (shape_in P.seen self.now) region word }
    {
        self.table.shared.load::<Looks<C>>(seat, at)
    }
}
