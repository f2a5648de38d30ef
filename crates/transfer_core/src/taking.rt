// What allowed steps change.
ghost use Rattle.std.specs.Prelude.{◌≡◌, ◌<◌, length};
ghost use Rattle.transfer_core.specs.Job.{job_of};
ghost use Rattle.transfer_core.specs.Plans.{IsValid, shape_of};
ghost use Rattle.transfer_core.specs.States.{HasTaken, HaveRoom, IsStateOf, MayTake};
ghost use Rattle.transfer_core.specs.declared.steps.Step.TheVariants as step;

use crate::passing::place_in;
use crate::{Plan, State, Step};
use key_codes::Placement;

// How many morsels a pipe has.
fn morsels<P: Placement>(plan: &Plan<P>, pipe: u32) -> u32
    requires valid { IsValid (shape_of P.seen plan.now) }
    requires pipe { pipe < length plan.now.pipes }
    ensures { result ≡ (job_of (shape_of P.seen plan.now)).morsels pipe }
{
    let from = &plan.pipes.as_slice()[pipe as usize];
    from.items.div_ceil(plan.morsel)
}

// Draws the pipe's next morsel, if one is left.
fn draw<P: Placement>(plan: &Plan<P>, state: &mut State, actor: u32, pipe: u32)
    requires valid { IsValid (shape_of P.seen plan.now) }
    requires of { IsStateOf (shape_of P.seen plan.now) state.old }
    requires allowed { MayTake (shape_of P.seen plan.now) state.old (step.Draw actor pipe) }
    ensures after { HasTaken (shape_of P.seen plan.now) state.old (step.Draw actor pipe) state.new }
    ensures room { HaveRoom (shape_of P.seen plan.now) state.new }
{
    let next = state.next[pipe as usize];
    if next < morsels(plan, pipe) {
        state.next[pipe as usize] = next + 1;
        state.actors[actor as usize].hold(pipe, next);
    }
}

// Puts an item into the region of a port.
fn put<P: Placement>(plan: &Plan<P>, state: &mut State, actor: u32, pipe: u32, item: u32, port: u32)
    requires valid { IsValid (shape_of P.seen plan.now) }
    requires of { IsStateOf (shape_of P.seen plan.now) state.old }
    requires allowed { MayTake (shape_of P.seen plan.now) state.old
        (step.Put actor pipe item port) }
    ensures after { HasTaken (shape_of P.seen plan.now) state.old (step.Put actor pipe item port)
        state.new }
    ensures room { HaveRoom (shape_of P.seen plan.now) state.new }
{
    let from = &plan.pipes.as_slice()[pipe as usize];
    let into = from.writes.as_slice()[port as usize];
    let place = place_in(plan, into, item);
    state.words.put(into.region, place.word, place.mask);
    state.actors[actor as usize].list(item, port);
}

// Finishes the morsel that the actor holds.
fn finish<P: Placement>(plan: &Plan<P>, state: &mut State, actor: u32, pipe: u32)
    requires valid { IsValid (shape_of P.seen plan.now) }
    requires of { IsStateOf (shape_of P.seen plan.now) state.old }
    requires allowed { MayTake (shape_of P.seen plan.now) state.old (step.Finish actor pipe) }
    ensures after { HasTaken (shape_of P.seen plan.now) state.old (step.Finish actor pipe)
        state.new }
    ensures room { HaveRoom (shape_of P.seen plan.now) state.new }
{
    let Some(held) = state.actors[actor as usize].held else {
        return;
    };
    // No more are finished than there are, which is a u32.
    let _all = morsels(plan, pipe);
    let done = state.done[pipe as usize];
    state.done[pipe as usize] = done + 1;
    state.actors[actor as usize].end(pipe, held.1);
}

// Looks whether all morsels of the pipe are finished.
fn see<P: Placement>(plan: &Plan<P>, state: &mut State, actor: u32, pipe: u32)
    requires valid { IsValid (shape_of P.seen plan.now) }
    requires of { IsStateOf (shape_of P.seen plan.now) state.old }
    requires allowed { MayTake (shape_of P.seen plan.now) state.old (step.See actor pipe) }
    ensures after { HasTaken (shape_of P.seen plan.now) state.old (step.See actor pipe) state.new }
    ensures room { HaveRoom (shape_of P.seen plan.now) state.new }
{
    let finished = state.done[pipe as usize];
    if finished == morsels(plan, pipe) {
        state.actors[actor as usize].see(pipe);
    }
}

/// Takes an allowed step.
pub(crate) fn take<P: Placement>(plan: &Plan<P>, state: &mut State, step: &Step)
    requires valid { IsValid (shape_of P.seen plan.now) }
    requires of { IsStateOf (shape_of P.seen plan.now) state.old }
    requires allowed { MayTake (shape_of P.seen plan.now) state.old step.now }
    ensures after { HasTaken (shape_of P.seen plan.now) state.old step.now state.new }
    ensures room { HaveRoom (shape_of P.seen plan.now) state.new }
{
    match *step {
        Step::Draw { actor, pipe } => draw(plan, state, actor, pipe),
        Step::Put {
            actor,
            pipe,
            item,
            port,
        } => put(plan, state, actor, pipe, item, port),
        Step::Finish { actor, pipe } => finish(plan, state, actor, pipe),
        Step::See { actor, pipe } => see(plan, state, actor, pipe),
        // It changes nothing.
        Step::Look { .. } => {}
    }
}
