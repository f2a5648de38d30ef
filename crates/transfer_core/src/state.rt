// States of a plan.
ghost use Rattle.std.specs.Prelude.{◌≡◌, ◌↔◌, IfOk, IsTrue, false, length, true};
ghost use Rattle.transfer_core.specs.Plans.{IsValid, shape_of};
ghost use Rattle.transfer_core.specs.States.{AreIdle, HasRoomEach, HasTaken, IsFirst, IsStateOf, MayTake};

use crate::allowed::is_allowed;
use crate::known::Known;
use crate::rooms::{all_morsels, most_puts};
use crate::taking::take;
use crate::{Plan, Sealed, Step};
use key_codes::Placement;
use rpt_base::Memory;
use std::alloc::Global;

/// For each pipe the number of its morsels that were drawn and of those that are finished, the words of each region, and what each actor
/// knows.
#[derive(Drop)]
pub struct State {
    pub(crate) next: Vec<u32>,
    pub(crate) done: Vec<u32>,
    pub(crate) words: Sealed,
    pub(crate) actors: Vec<Known>,
}

impl State {
    /// The first state of a plan with so many actors, with room for all its steps. `Memory` where there is too little of it.
    pub fn start<P: Placement>(alloc: Global, plan: &Plan<P>, actors: u32) -> Result<State, Memory>
        requires { IsValid (shape_of P.seen plan.now) }
        ensures first { IfOk result (IsFirst (shape_of P.seen plan.now) actors) }
        ensures of { IfOk result (IsStateOf (shape_of P.seen plan.now)) }
    {
        let pipes = plan.pipes.as_slice().len();
        let next = vec![in alloc; 0; pipes]?;
        let done = vec![in alloc; 0; pipes]?;
        let words = Sealed::zeros(alloc, plan.words.as_slice())?;
        let actors = all_idle(alloc, plan, actors)?;
        Ok(State {
            next,
            done,
            words,
            actors,
        })
    }
}

// So many actors that know nothing.
fn all_idle<P: Placement>(alloc: Global, plan: &Plan<P>, actors: u32) -> Result<Vec<Known>, Memory>
    requires { IsValid (shape_of P.seen plan.now) }
    ensures idle { IfOk result (λ all. AreIdle (length plan.now.pipes) actors all.items) }
    ensures room { IfOk result (λ all. HasRoomEach (shape_of P.seen plan.now) all.items) }
{
    let puts = most_puts(plan)?;
    let morsels = all_morsels(plan);
    let pipes = plan.pipes.as_slice().len();
    let mut all = Vec::with_capacity(alloc, actors as usize)?;
    for _ in 0..actors {
        let known = Known::start(alloc, puts, morsels, pipes)?;
        all.push(known)?;
    }
    Ok(all)
}

/// Takes a step of a state that was started with this plan, if the step is allowed. False where it isn't, and the state is then unchanged.
/// It takes no memory.
pub fn step<P: Placement>(plan: &Plan<P>, state: &mut State, step: &Step) -> bool
    requires valid { IsValid (shape_of P.seen plan.now) }
    requires of { IsStateOf (shape_of P.seen plan.now) state.old }
    ensures allowed { IsTrue result ↔ MayTake (shape_of P.seen plan.now) state.old step.now }
    ensures taken { result ≡ true → HasTaken (shape_of P.seen plan.now)
        state.old step.now state.new }
    ensures unchanged { result ≡ false → state.new ≡ state.old }
    ensures of { IsStateOf (shape_of P.seen plan.now) state.new }
{
    if !is_allowed(plan, state, step) {
        return false;
    }
    take(plan, state, step);
    true
}
