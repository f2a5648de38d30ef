// The plan of a tree, and the items that its filters keep.
ghost use Rattle.std.specs.Prelude.{◌≡◌, ◌≤◌, EachIndex, length, slice_index};
ghost use Rattle.rpt_engine.specs.Places.{places_of};
ghost use Rattle.transfer_core.specs.Plans.{IsValid, shape_of};
ghost use Rattle.transfer_plan.specs.Kept.{CanTell, item_count, sealed_run};

use crate::boards::run_of;
use crate::parts::planned;
use crate::trees::{Parts, parts_of};
use case_text::{Case, CaseError, put};
use rpt_base::limits::are_workers;
use rpt_engine::AnyPlace;
use std::alloc::Global;
use std::thread::Threads;
use transfer_core::{Plan, Port};
use transfer_pass::TransferRun;

/// Puts the words of the regions of a case's plan, and each pipe in a line.
pub fn put_tree(alloc: Global, case: &Case, given: &mut String) -> Result<(), CaseError> {
    let Parts {
        tree,
        items,
        edges,
        morsel,
        workers: _,
    } = parts_of(alloc, case)?;
    put_plan(planned(alloc, &tree, &items, edges, morsel)?, given);
    Ok(())
}

fn put_plan(plan: Plan<AnyPlace>, given: &mut String) {
    put_pipes(&plan, given);
    drop(plan);
}

fn put_pipes(plan: &Plan<AnyPlace>, given: &mut String) {
    let words = plan.words.as_slice();
    put(given, format_args!("words {words:?}\n"));
    for pipe in plan.pipes.as_slice() {
        put(given, format_args!("pipe {} reads", pipe.items));
        put_ports(pipe.reads.as_slice(), given);
        put(given, " writes");
        put_ports(pipe.writes.as_slice(), given);
        put(given, "\n");
    }
}

fn put_ports(ports: &[Port], given: &mut String) {
    for port in ports {
        put(given, format_args!(" {}:{}", port.region, port.places));
    }
}

/// Puts the items of each relation that a run of a case's plan keeps.
pub fn put_kept<R: Threads + Sync>(
    rt: &R,
    alloc: Global,
    case: &Case,
    given: &mut String,
) -> Result<(), CaseError> {
    let Parts {
        tree,
        items,
        edges,
        morsel,
        workers,
    } = parts_of(alloc, case)?;
    let plan = planned(alloc, &tree, &items, edges, morsel)?;
    put_run(rt, alloc, plan, &items, workers, given)
}

// The plan goes with the call and is dropped in one: held where a function branches, it makes the proof much larger.
fn put_run<R: Threads + Sync>(
    rt: &R,
    alloc: Global,
    plan: Plan<AnyPlace>,
    items: &[u32],
    workers: u32,
    given: &mut String,
) -> Result<(), CaseError>
    requires valid { IsValid (shape_of places_of plan) }
    requires tells { EachIndex items.now (CanTell (sealed_run (shape_of places_of plan))) }
    requires items { EachIndex items.now (λ r.
        item_count (sealed_run (shape_of places_of plan)) r ≡ slice_index items.now r) }
    requires few { length items.now ≤ 64 }
{
    if !are_workers(workers) {
        return Err(CaseError::Range);
    }
    let run = run_of(rt, alloc, plan, workers)?;
    for relation in 0..items.len() {
        put_relation(&run, relation as u32, items[relation], given);
    }
    Ok(())
}

fn put_relation(run: &TransferRun, relation: u32, items: u32, given: &mut String)
    requires told { CanTell run.now relation }
    requires items { items ≤ item_count run.now relation }
{
    put(
        given,
        format_args!("{relation} keeps {}:", run.reduced(relation)),
    );
    for item in 0..items {
        if run.keeps(relation, item) {
            put(given, format_args!(" {item}"));
        }
    }
    put(given, "\n");
}
