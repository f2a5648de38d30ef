// The rule of a board, and what each kind of step tells.
ghost use Rattle.std.specs.Prelude.{◌≡◌, ◌≤◌, ◌<◌, ℕ, List, []};
ghost use Rattle.transfer_core.specs.Actors.{HoldsNone};
ghost use Rattle.transfer_core.specs.Plans.{shape_of};
ghost use Rattle.filter_board.specs.Rule.{IsSoundBoard};
ghost use Rattle.filter_board.specs.Shares.{HasFinishedBelow, HasFinishedOnce, IsTold, fresh, parts_of, spent};
ghost use Rattle.filter_board.specs.Shares.{after_draw, after_find, after_finish, after_look, after_puts, joined, less, piece};

use crate::setup::Setup;
use crate::share::Share;
use atomic_table::{Join, Play, Split, TableRule};
use key_codes::Placement;
use std::marker::{Brand, PhantomData};

/// Between any two steps a board is a sound state of its plan.
pub struct BoardRule<P> {
    places: PhantomData<P>,
}

impl<P: Placement> TableRule<(), Share, Setup<P>> for BoardRule<P> {
    ghost holds = { λ k s. IsSoundBoard (shape_of P.seen k.plan) (parts_of k.workers) s.words s.views };

    ghost first = { λ k. fresh (parts_of k.workers) };
}

/// What a step is about, for its proof alone. A call at `Brand` picks it.
pub trait About {
    ghost use Rattle.std.specs.Prelude.{ℕ, List};

    ghost pipe: { ℕ };

    ghost morsels: { ℕ };

    ghost items: { List ℕ };

    ghost port: { ℕ };

    ghost mask: { ℕ };

    ghost sealed: { ℕ };

    ghost parts: { ℕ };
}

impl About for Brand {
    ghost pipe = { 0 };

    ghost morsels = { 0 };

    ghost items = { [] };

    ghost port = { 0 };

    ghost mask = { 0 };

    ghost sealed = { 0 };

    ghost parts = { 0 };
}

/// A draw from a pipe with so many morsels. What is drawn is above all that the hand has finished of the pipe.
pub struct Draws<C> {
    about: PhantomData<C>,
}

impl<C: About> Play<(), Share> for Draws<C> {
    ghost then = { λ _ me r after. (after ≡ (after_draw C.pipe C.morsels me.0 r, me.1))
        × HasFinishedBelow r C.pipe me.0.actor };
}

/// A put of a run of items into the region of a port: as many puts of one item, made at once.
pub struct Puts<C> {
    about: PhantomData<C>,
}

impl<C: About> Play<(), Share> for Puts<C> {
    ghost then = { λ _ me _ after. after ≡ (after_puts C.items C.port me.0, me.1) };
}

/// A look at the word of a run of items in the region of a port. Where it has all bits of their masks, it is as good as a put.
pub struct Finds<C> {
    about: PhantomData<C>,
}

impl<C: About> Play<(), Share> for Finds<C> {
    ghost then = { λ _ me r after. after ≡ (after_find C.items C.port C.mask me.0 r, me.1) };
}

/// The end of the morsel that is held.
pub struct Finishes;

impl Play<(), Share> for Finishes {
    ghost then = { λ _ me _ after. after ≡ (after_finish me.0, me.1) };
}

/// A look at the counter of a pipe's finished morsels. Who has all parts, holds nothing and was told that none is left finds it
/// full.
pub struct Sees<C> {
    about: PhantomData<C>,
}

impl<C: About> Play<(), Share> for Sees<C> {
    ghost then = { λ _ me r after. (after ≡ (after_look C.pipe C.morsels me.0 r, me.1))
        × (me.0.parts ≡ C.parts → HoldsNone me.0.actor → IsTold me.0.told C.pipe → C.morsels ≤ r) };
}

/// A look at a word of a region whose pipe was seen full.
pub struct Looks<C> {
    about: PhantomData<C>,
}

impl<C: About> Play<(), Share> for Looks<C> {
    ghost then = { λ _ me r after. (after ≡ me) × (r ≡ C.sealed) };
}

/// A look that changes nothing, and tells that the hand has finished no morsel of the first pipes, so many, twice.
pub struct Shows<C> {
    about: PhantomData<C>,
}

impl<C: About> Play<(), Share> for Shows<C> {
    ghost then = { λ _ me _ after. (after ≡ me) × HasFinishedOnce C.pipe me.0.actor };
}

/// So many parts go to a new hand.
pub struct Splits<C> {
    about: PhantomData<C>,
}

impl<C: About> Split<Share> for Splits<C> {
    ghost left = { less C.parts };

    ghost right = { piece C.parts };
}

/// Two hands become one.
pub struct Joins;

impl Join<Share> for Joins {
    ghost both = { joined };

    ghost spent = { spent };
}

/// The parts of one worker go to a new hand.
pub struct Deals;

impl Split<Share> for Deals {
    ghost left = { less (parts_of 1) };

    ghost right = { piece (parts_of 1) };
}
