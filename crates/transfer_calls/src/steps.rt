// What plans give, and the steps that actors take of them.
ghost use Rattle.transfer_core.specs.Plans.{IsValid, shape_of};
ghost use Rattle.transfer_core.specs.States.{IsStateOf};
ghost use Rattle.rpt_engine.specs.Places.{places_of};

use crate::plans::plan_of;
use case_text::{CaseError, Entry, number_of, pair_of, put};
use rpt_engine::AnyPlace;
use std::alloc::Global;
use transfer_core::{Plan, State, Step, run_plain, step, valid};

/// Puts the words of a plan's sealed regions, if it is valid.
pub fn put_plan(alloc: Global, entries: &[Entry], given: &mut String) -> Result<(), CaseError> {
    put_sealed(alloc, &plan_of(alloc, entries)?, given)
}

fn put_sealed(alloc: Global, plan: &Plan<AnyPlace>, given: &mut String) -> Result<(), CaseError> {
    if !valid(plan) {
        put(given, "not valid\n");
        return Ok(());
    }
    let sealed = run_plain(alloc, plan)?;
    put(given, format_args!("{sealed:?}\n"));
    Ok(())
}

/// Puts in one line for each step of so many actors whether it is taken.
pub fn put_steps(
    alloc: Global,
    actors: &str,
    entries: &[Entry],
    given: &mut String,
) -> Result<(), CaseError> {
    let plan = plan_of(alloc, entries)?;
    let done = put_taken(alloc, &plan, actors, entries, given);
    drop(plan);
    done
}

fn put_taken(
    alloc: Global,
    plan: &Plan<AnyPlace>,
    actors: &str,
    entries: &[Entry],
    given: &mut String,
) -> Result<(), CaseError> {
    let actors = number_of(Some(actors))?;
    if !valid(plan) || actors > 32 {
        return Err(CaseError::Range);
    }
    let mut state = State::start(alloc, plan, actors)?;
    put_answers(plan, &mut state, entries, given)
}

fn put_answers(
    plan: &Plan<AnyPlace>,
    state: &mut State,
    entries: &[Entry],
    given: &mut String,
) -> Result<(), CaseError>
    requires valid { IsValid (shape_of places_of plan.now) }
    requires of { IsStateOf (shape_of places_of plan.now) state.old }
{
    put(given, "taken");
    for entry in entries {
        if let Some(next) = step_of(entry.word.as_str(), entry.rest.as_str())? {
            let is_taken = step(plan, state, &next);
            put(given, if is_taken { " yes" } else { " no" });
        }
    }
    put(given, "\n");
    Ok(())
}

// The step of a line; none, where it says something else.
fn step_of(word: &str, rest: &str) -> Result<Option<Step>, CaseError> {
    match word {
        "draw" | "finish" | "see" => step_at(word, rest),
        "put" => put_step(rest),
        "look" => look_step(rest),
        _ => Ok(None),
    }
}

// A step of an actor at a pipe.
fn step_at(word: &str, rest: &str) -> Result<Option<Step>, CaseError> {
    let mut words = rest.split_whitespace();
    let (actor, pipe) = pair_of(words.next(), words.next())?;
    Ok(Some(match word {
        "draw" => Step::Draw { actor, pipe },
        "finish" => Step::Finish { actor, pipe },
        _ => Step::See { actor, pipe },
    }))
}

fn put_step(rest: &str) -> Result<Option<Step>, CaseError> {
    let mut words = rest.split_whitespace();
    let (actor, pipe) = pair_of(words.next(), words.next())?;
    let (item, port) = pair_of(words.next(), words.next())?;
    Ok(Some(Step::Put {
        actor,
        pipe,
        item,
        port,
    }))
}

fn look_step(rest: &str) -> Result<Option<Step>, CaseError> {
    let mut words = rest.split_whitespace();
    let actor = number_of(words.next())?;
    let (region, word) = pair_of(words.next(), words.next())?;
    Ok(Some(Step::Look {
        actor,
        region,
        word,
    }))
}
