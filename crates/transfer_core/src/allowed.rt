// Which steps are allowed.
ghost use Rattle.std.specs.Prelude.{◌≡◌, ◌↔◌, All, IsTrue};
ghost use Rattle.transfer_core.specs.Actors.{holding, nothing};
ghost use Rattle.transfer_core.specs.Job.{writer};
ghost use Rattle.transfer_core.specs.Plans.{HasPlace, HavePlaces, IsValid, shape_of};
ghost use Rattle.transfer_core.specs.States.{ArePut, IsPut, IsStateOf, MayTake, are_writers_marked, held_of};
ghost use Rattle.transfer_core.specs.Words.{AreSized};
ghost use Rattle.transfer_core.specs.declared.steps.Step.TheVariants as step;

use crate::known::{Known, is_listed};
use crate::passing::passes;
use crate::validity::writes;
use crate::{Pipe, Plan, Port, Sealed, State, Step};
use key_codes::Placement;

// The pipe that writes a region.
fn writer(pipes: &[Pipe], region: u32) -> usize
    ensures { result ≡ writer pipes.now region }
{
    for i in 0..pipes.len() {
        if writes(&pipes[i], region) {
            return i;
        }
    }
    pipes.len()
}

// Whether an actor has seen full the pipes that write what these ports read.
fn has_seen_all(pipes: &[Pipe], known: &Known, reads: &[Port]) -> bool
    ensures { result ≡ are_writers_marked known.now.seen.items pipes.now reads.now }
{
    reads
        .iter()
        .all(|port| known.has_seen(writer(pipes, port.region)))
}

// Whether an actor holds no morsel.
fn is_free(known: &Known) -> bool
    ensures { IsTrue result ↔ (held_of known.now.held ≡ nothing) }
{
    match known.held {
        Some(_) => false,
        None => true,
    }
}

// Whether an actor holds this morsel.
fn holds(known: &Known, pipe: u32, morsel: u32) -> bool
    ensures { IsTrue result ↔ (held_of known.now.held ≡ holding pipe morsel) }
{
    match known.held {
        Some(held) => held.0 == pipe && held.1 == morsel,
        None => false,
    }
}

// Whether an item does not pass its pipe, or its puts into the regions of all the pipe's ports are listed.
fn is_put<P: Placement>(
    plan: &Plan<P>,
    words: &Sealed,
    pipe: &Pipe,
    puts: &[(u32, u32)],
    item: u32,
) -> bool
    requires places { All (HasPlace (shape_of P.seen plan.now) item) pipe.now.reads }
    requires sized { AreSized (shape_of P.seen plan.now) words.now }
    ensures { IsTrue result ↔ IsPut (shape_of P.seen plan.now) words.now pipe.now puts.now item }
{
    if !passes(plan, words, pipe.reads.as_slice(), item) {
        return true;
    }
    let ports = pipe.writes.as_slice().len();
    for port in 0..ports {
        if !is_listed(puts, item, port) {
            return false;
        }
    }
    true
}

// Whether that holds of each item of a morsel.
fn are_put<P: Placement>(
    plan: &Plan<P>,
    words: &Sealed,
    pipe: &Pipe,
    puts: &[(u32, u32)],
    morsel: u32,
) -> bool
    requires valid { IsValid (shape_of P.seen plan.now) }
    requires places { HavePlaces (shape_of P.seen plan.now) pipe.now.items pipe.now.reads }
    requires sized { AreSized (shape_of P.seen plan.now) words.now }
    ensures { IsTrue result ↔ ArePut (shape_of P.seen plan.now) words.now pipe.now puts.now morsel }
{
    for item in 0..pipe.items {
        if item / plan.morsel == morsel && !is_put(plan, words, pipe, puts, item) {
            return false;
        }
    }
    true
}

// Whether an actor may draw from a pipe.
fn may_draw<P: Placement>(plan: &Plan<P>, state: &State, actor: u32, pipe: u32) -> bool
    ensures { IsTrue result ↔ MayTake (shape_of P.seen plan.now) state.now (step.Draw actor pipe) }
{
    let pipes = plan.pipes.as_slice();
    let actors = state.actors.as_slice();
    if actor as usize >= actors.len() || pipe as usize >= pipes.len() {
        return false;
    }
    let known = &actors[actor as usize];
    let from = &pipes[pipe as usize];
    is_free(known) && has_seen_all(pipes, known, from.reads.as_slice())
}

// Whether it may put an item into the region of a port.
fn may_put<P: Placement>(
    plan: &Plan<P>,
    state: &State,
    actor: u32,
    pipe: u32,
    item: u32,
    port: u32,
) -> bool
    requires valid { IsValid (shape_of P.seen plan.now) }
    requires of { IsStateOf (shape_of P.seen plan.now) state.now }
    ensures { IsTrue result ↔ MayTake (shape_of P.seen plan.now) state.now
        (step.Put actor pipe item port) }
{
    let pipes = plan.pipes.as_slice();
    let actors = state.actors.as_slice();
    if actor as usize >= actors.len() || pipe as usize >= pipes.len() {
        return false;
    }
    if !holds(&actors[actor as usize], pipe, item / plan.morsel) {
        return false;
    }
    let from = &pipes[pipe as usize];
    if item >= from.items || port as usize >= from.writes.as_slice().len() {
        return false;
    }
    passes(plan, &state.words, from.reads.as_slice(), item)
}

// Whether it may finish the morsel that it holds.
fn may_finish<P: Placement>(plan: &Plan<P>, state: &State, actor: u32, pipe: u32) -> bool
    requires valid { IsValid (shape_of P.seen plan.now) }
    requires of { IsStateOf (shape_of P.seen plan.now) state.now }
    ensures { IsTrue result ↔ MayTake (shape_of P.seen plan.now) state.now
        (step.Finish actor pipe) }
{
    let pipes = plan.pipes.as_slice();
    let actors = state.actors.as_slice();
    if actor as usize >= actors.len() || pipe as usize >= pipes.len() {
        return false;
    }
    let known = &actors[actor as usize];
    let Some(held) = known.held else {
        return false;
    };
    if held.0 != pipe {
        return false;
    }
    let from = &pipes[pipe as usize];
    are_put(plan, &state.words, from, known.puts.as_slice(), held.1)
}

// Whether it may read a word of a region.
fn may_look<P: Placement>(plan: &Plan<P>, state: &State, actor: u32, region: u32, word: u32) -> bool
    ensures { IsTrue result ↔ MayTake (shape_of P.seen plan.now) state.now
        (step.Look actor region word) }
{
    let words = plan.words.as_slice();
    let actors = state.actors.as_slice();
    if actor as usize >= actors.len() || region as usize >= words.len() {
        return false;
    }
    if word >= words[region as usize] {
        return false;
    }
    actors[actor as usize].has_seen(writer(plan.pipes.as_slice(), region))
}

/// Whether a step is allowed.
pub(crate) fn is_allowed<P: Placement>(plan: &Plan<P>, state: &State, step: &Step) -> bool
    requires valid { IsValid (shape_of P.seen plan.now) }
    requires of { IsStateOf (shape_of P.seen plan.now) state.now }
    ensures { IsTrue result ↔ MayTake (shape_of P.seen plan.now) state.now step.now }
{
    match *step {
        Step::Draw { actor, pipe } => may_draw(plan, state, actor, pipe),
        Step::Put {
            actor,
            pipe,
            item,
            port,
        } => may_put(plan, state, actor, pipe, item, port),
        Step::Finish { actor, pipe } => may_finish(plan, state, actor, pipe),
        Step::See { actor, pipe } => {
            (actor as usize) < state.actors.len() && (pipe as usize) < plan.pipes.as_slice().len()
        }
        Step::Look {
            actor,
            region,
            word,
        } => may_look(plan, state, actor, region, word),
    }
}
