// Morsels: drawn, put and finished.
ghost use Rattle.std.specs.Prelude.{◌≡◌, ℕ, ◌<◌, ◌^◌, All, IfNone, IfSome, false, length, true};
ghost use Rattle.transfer_core.specs.Actors.{HoldsNone, is_marked, with_finished, with_morsel};
ghost use Rattle.transfer_core.specs.Job.{IsPassing};
ghost use Rattle.transfer_core.specs.Plans.{HasPlace, place_at, shape_of, words_of};
ghost use Rattle.transfer_core.specs.Sound.{HasSeenReads};
ghost use Rattle.filter_board.specs.Runs.{MayPut, with_all_put};
ghost use Rattle.filter_board.specs.Shares.{HasFinishedBelow, IsTold, after_draw, after_puts};
ghost use Rattle.filter_board.specs.Views.{IsRun, MayFinish, index_of_item, job_in, with_actor, with_told};

use crate::board::Board;
use crate::hand::Hand;
use crate::rule::{About, Draws, Finds, Finishes, Puts};
use crate::share::Share;
use atomic_table::Seat;
use key_codes::{Place, Placement};
use std::marker::Brand;
use transfer_core::{Plan, Port};

impl<P: Placement + Drop> Board<P> {
    /// Draws a morsel of a pipe: the number, from 0, at which the pipe's counter of drawn morsels stood at this step. `None` comes
    /// exactly where the counter had reached the number of morsels, or where this hand was told so before.
    pub fn draw(&self, hand: &mut Hand, pipe: u32) -> Option<u32>
        requires own { hand.old.of ≡ self.now.of }
        requires pipe { pipe < length self.now.plan.pipes }
        requires free { HoldsNone hand.old.actor }
        requires seen { HasSeenReads (job_in P.seen self.now) pipe hand.old.actor }
        ensures held { IfSome result (λ m. hand.new ≡ with_actor (with_morsel pipe m) hand.old) }
        ensures within { IfSome result (λ m. m < (job_in P.seen self.now).morsels pipe) }
        ensures untold { IfSome result (λ m. is_marked hand.old.told pipe ≡ false) }

        // So a loop that draws until it is told `None` ends.
        ensures rising { IfSome result (λ m. HasFinishedBelow m pipe hand.old.actor) }
        ensures told { IfNone result (IsTold hand.new.told pipe) }
        ensures none { IfNone result (hand.new ≡ with_told pipe hand.old) }
        ensures keeps { (p : ℕ) → IsTold hand.old.told p → IsTold hand.new.told p }
    {
        let morsels = self.morsels(pipe);
        if hand.told[pipe as usize] {
            return None;
        }
        let found = self.draw_as::<Brand>(&mut hand.seat, pipe, morsels);
        if found < morsels {
            Some(found as u32)
        } else {
            hand.told[pipe as usize] = true;
            None
        }
    }

    fn draw_as<C: About>(&self, seat: &mut Seat<(), Share>, pipe: u32, morsels: u64) -> u64
        requires about { (C.pipe ≡ pipe) × (C.morsels ≡ morsels) }
        requires own { seat.old.table_id ≡ self.now.of }
        requires pipe { pipe < length self.now.plan.pipes }
        requires morsels { morsels ≡ (job_in P.seen self.now).morsels pipe }
        requires few { morsels < 2 ^ 32 }
        requires free { HoldsNone seat.old.me.0.actor }
        requires part { 0 < seat.old.me.0.parts }
        requires untold { is_marked seat.old.me.0.told pipe ≡ false }
        requires marks { pipe < length seat.old.me.0.told }
        requires seen { HasSeenReads (job_in P.seen self.now) pipe seat.old.me.0.actor }
        ensures own { seat.new.table_id ≡ seat.old.table_id }
        ensures me { seat.new.me ≡ (after_draw pipe morsels seat.old.me.0 result, seat.old.me.1) }
        ensures rising { HasFinishedBelow result pipe seat.old.me.0.actor }
    {
        self.table
            .shared
            .fetch_add::<Draws<C>>(seat, pipe as usize, 1)
    }

    /// Puts items of the morsel that the hand holds, each of which passes, into the region of a port, in the order of the list.
    /// Pipes, items and a pipe's ports are numbered from 0. Successive items whose places are in one word are put at once: one
    /// look at the word, and where it lacks a bit of their masks, one `fetch_or` of all of them. So workers whose items have the
    /// same words wait for each other as seldom as can be.
    pub fn put_all(&self, hand: &mut Hand, pipe: u32, port: u32, items: &[u32])
        requires own { hand.old.of ≡ self.now.of }
        requires items { All (MayPut (job_in P.seen self.now) pipe port hand.old.actor) items.now }
        ensures { hand.new ≡ with_actor (with_all_put items.now port) hand.old }
    {
        if items.is_empty() {
            return;
        }
        let mut start = 0;
        let (mut at, mut mask) = self.spot(pipe, items[0], port);
        for next in 1..items.len() {
            let (spot, more) = self.spot(pipe, items[next], port);
            if spot != at {
                self.put_run(hand, pipe, port, &items[start..next], at, mask);
                start = next;
                at = spot;
                mask = 0;
            }
            mask |= more;
        }
        self.put_run(hand, pipe, port, &items[start..], at, mask);
    }

    // Puts a run of items, whose places are in one word.
    fn put_run(&self, hand: &mut Hand, pipe: u32, port: u32, items: &[u32], at: usize, mask: u64)
        requires own { hand.old.of ≡ self.now.of }
        requires items { All (MayPut (job_in P.seen self.now) pipe port hand.old.actor) items.now }
        requires run { IsRun P.seen self.now pipe port items.now at mask }
        requires inside { at < self.now.of.words }
        ensures { hand.new ≡ with_actor (with_all_put items.now port) hand.old }
    {
        // Workers whose items have the same few words wait for each other at each `fetch_or`, but not at a load.
        if !self.finds_as::<Brand>(&mut hand.seat, pipe, port, items, at, mask) {
            self.put_as::<Brand>(&mut hand.seat, pipe, port, items, at, mask);
        }
    }

    // Whether the word has the bits of the items already, so that they are put without a change.
    fn finds_as<C: About>(
        &self,
        seat: &mut Seat<(), Share>,
        pipe: u32,
        port: u32,
        items: &[u32],
        at: usize,
        mask: u64,
    ) -> bool
        requires about { (C.items ≡ items.now) × (C.port ≡ port) × (C.mask ≡ mask) }
        requires own { seat.old.table_id ≡ self.now.of }
        requires items { All (MayPut (job_in P.seen self.now) pipe port seat.old.me.0.actor)
            items.now }
        requires run { IsRun P.seen self.now pipe port items.now at mask }
        requires inside { at < self.now.of.words }
        requires part { 0 < seat.old.me.0.parts }
        ensures own { seat.new.table_id ≡ seat.old.table_id }
        ensures put { result ≡ true
            → seat.new.me ≡ (after_puts items.now port seat.old.me.0, seat.old.me.1) }
        ensures not_put { result ≡ false → seat.new.me ≡ seat.old.me }
    {
        let word = self.table.shared.load::<Finds<C>>(seat, at);
        word & mask == mask
    }

    fn put_as<C: About>(
        &self,
        seat: &mut Seat<(), Share>,
        pipe: u32,
        port: u32,
        items: &[u32],
        at: usize,
        mask: u64,
    )
        requires about { (C.items ≡ items.now) × (C.port ≡ port) }
        requires own { seat.old.table_id ≡ self.now.of }
        requires items { All (MayPut (job_in P.seen self.now) pipe port seat.old.me.0.actor)
            items.now }
        requires run { IsRun P.seen self.now pipe port items.now at mask }
        requires inside { at < self.now.of.words }
        requires part { 0 < seat.old.me.0.parts }
        ensures own { seat.new.table_id ≡ seat.old.table_id }
        ensures me { seat.new.me ≡ (after_puts items.now port seat.old.me.0, seat.old.me.1) }
    {
        self.table.shared.fetch_or::<Puts<C>>(seat, at, mask);
    }

    // Where the region of a port has an item: the word's place among all words of the table, and the mask.
    fn spot(&self, pipe: u32, item: u32, port: u32) -> (usize, u64)
        requires { IsPassing (job_in P.seen self.now) pipe item port }
        ensures at { result.0 ≡ index_of_item P.seen self.now pipe item port }
        ensures inside { result.0 < self.now.of.words }
        ensures mask { result.1 ≡ (job_in P.seen self.now).mask pipe item port }
    {
        let plan = &self.setup.plan;
        let from = &plan.pipes.as_slice()[pipe as usize];
        let into = from.writes.as_slice()[port as usize];
        let place = place_in(plan, into, item);
        (self.at(into.region, place.word), place.mask)
    }

    /// Finishes the morsel that the hand holds, where all puts for it were made. One `fetch_add` on the pipe's counter of finished
    /// morsels.
    pub fn finish(&self, hand: &mut Hand, pipe: u32)
        requires own { hand.old.of ≡ self.now.of }
        requires pipe { pipe < length self.now.plan.pipes }
        requires all_put { MayFinish (job_in P.seen self.now) pipe hand.old.actor }
        ensures { hand.new ≡ with_actor (λ a. with_finished a.held a) hand.old }
    {
        // No more are finished than there are, so that the counter has room for one more.
        let _all = self.morsels(pipe);
        let at = self.setup.plan.pipes.as_slice().len() + pipe as usize;
        self.table
            .shared
            .fetch_add::<Finishes>(&mut hand.seat, at, 1);
    }
}

// The place of an item in the region of a port.
fn place_in<P: Placement>(plan: &Plan<P>, port: Port, item: u32) -> Place
    requires { HasPlace (shape_of P.seen plan.now) item port }
    ensures place { result ≡ place_at (shape_of P.seen plan.now) port item }
    ensures inside { result.word < words_of (shape_of P.seen plan.now) port.region }
{
    let words = plan.words.as_slice()[port.region as usize];
    plan.places.as_slice()[port.places as usize].place(item, words)
}
