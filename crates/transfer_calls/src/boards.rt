// Plans that are run on a board.
ghost use Rattle.std.specs.Prelude.{◌≡◌, IfOk};
ghost use Rattle.rpt_base.specs.Limits.{AreWorkers};
ghost use Rattle.rpt_engine.specs.Places.{places_of};
ghost use Rattle.transfer_core.specs.Plans.{IsValid, shape_of};
ghost use Rattle.transfer_plan.specs.Kept.{sealed_run};

use crate::plans::plan_of;
use case_text::{Case, CaseError, pair_of, put};
use filter_board::Board;
use rpt_base::limits::are_workers;
use rpt_engine::AnyPlace;
use rpt_outside::OpenGate;
use std::alloc::Global;
use std::thread::Threads;
use transfer_core::{Plan, valid};
use transfer_pass::{TransferRun, run};

/// Puts the words of the regions that so many workers seal, where each of so many runs seals the same.
pub fn put_board<R: Threads + Sync>(
    rt: &R,
    alloc: Global,
    case: &Case,
    given: &mut String,
) -> Result<(), CaseError> {
    let mut head = case.head.split_whitespace();
    let (workers, times) = pair_of(head.next(), head.next())?;
    let mut first = String::new(alloc);
    for time in 0..times {
        let plan = plan_of(alloc, &case.entries)?;
        put_run(rt, alloc, plan, workers, time, &mut first, given)?;
    }
    put(given, first.as_str());
    Ok(())
}

// Keeps what the first run seals, and puts that a later one seals something else.
fn put_run<R: Threads + Sync>(
    rt: &R,
    alloc: Global,
    plan: Plan<AnyPlace>,
    workers: u32,
    time: u32,
    first: &mut String,
    given: &mut String,
) -> Result<(), CaseError> {
    let text = sealed_text(rt, alloc, plan, workers)?;
    if time == 0 {
        *first = text;
    } else if text.as_bytes() != first.as_bytes() {
        put(given, format_args!("run {time} differs\n"));
    }
    Ok(())
}

fn sealed_text<R: Threads + Sync>(
    rt: &R,
    alloc: Global,
    plan: Plan<AnyPlace>,
    workers: u32,
) -> Result<String, CaseError> {
    if !valid(&plan) || !are_workers(workers) {
        return Err(CaseError::Range);
    }
    text_of(alloc, run_of(rt, alloc, plan, workers)?)
}

// The run goes with the call and is dropped in one: held where a function branches, it makes the proof much larger.
fn text_of(alloc: Global, run: TransferRun) -> Result<String, CaseError> {
    let text = format!(in alloc; "{:?}\n", run.sealed());
    drop(run);
    Ok(text?)
}

/// The run of a plan by so many workers.
pub fn run_of<R: Threads + Sync>(
    rt: &R,
    alloc: Global,
    plan: Plan<AnyPlace>,
    workers: u32,
) -> Result<TransferRun, CaseError>
    requires valid { IsValid (shape_of places_of plan) }
    requires workers { AreWorkers workers }
    ensures { IfOk result (λ run. run ≡ sealed_run (shape_of places_of plan)) }
{
    match Board::make(alloc, plan, workers) {
        Ok((board, hands)) => Ok(run(rt, board, hands, &OpenGate)),
        Err(_) => Err(CaseError::Memory),
    }
}
