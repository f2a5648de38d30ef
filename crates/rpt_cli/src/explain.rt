// Mode explain: the report of how a query is answered, with the numbers of rows.
ghost use Rattle.std.specs.Prelude.{◌≡◌, IfOk};
ghost use Rattle.bound_query.specs.Answer.{AreTables, counts_of};
ghost use Rattle.rpt_outside.specs.Seen.{seen};
ghost use Rattle.rpt_outside.specs.Whole.{bytes_of};
ghost use Rattle.rpt_engine.specs.Answered.{plan_of};
ghost use Rattle.rpt_engine.specs.Prepared.{IsReady};
ghost use Rattle.rpt_cli.specs.Command.{explain_course, explain_text};
ghost use Rattle.rpt_cli.specs.Course.{Gives};
ghost use Rattle.rpt_cli.specs.Steps.{AreKept, TellsRun};

use crate::joins::answer_query;
use crate::ready::Ready;
use crate::reports::report_on;
use binder::{Bound, table_at};
use column_table::Table;
use plan_report::RunPart;
use refusal_lines::Refusal;
use rpt_base::{Memory, Str};
use rpt_engine::Outcome;
use rpt_outside::{Files, Gate};
use std::alloc::Global;
use std::thread::Threads;

/// Loads the tables of a query that is ready, answers it over them, and reports how.
pub(crate) fn explain<R: Threads + Sync, F: Files, G: Gate + Sync>(
    rt: &R,
    alloc: Global,
    ready: &Ready,
    folder: &Str,
    files: &mut F,
    gate: &G,
) -> Result<Vec<u8>, Refusal>
    requires { IsReady ready.now.bound ready.now.prepared ready.now.options }
    ensures gives { Gives (seen F.Files files.old files.new)
        (explain_course ready.now.options.filter folder.now ready.now.bound ready.now.options.order) (bytes_of result) }
    ensures kept { AreKept F.Files files.old files.new }
{
    let found = answer_query(rt, alloc, ready, folder, files, gate)?;
    let text = explain_text(alloc, ready, found.tables.as_slice(), &found.outcome);
    drop(found);
    let text = text?;
    Ok(text)
}

/// The report of an outcome.
pub(crate) fn explain_text(
    alloc: Global,
    ready: &Ready,
    tables: &[Table],
    outcome: &Outcome,
) -> Result<Vec<u8>, Memory>
    requires ready { IsReady ready.now.bound ready.now.prepared ready.now.options }
    requires tables { AreTables ready.now.bound.query tables.now }
    requires tells { TellsRun ready.now.bound tables.now ready.now.options outcome.now }
    ensures { IfOk result (λ text. text.items
        ≡ explain_text ready.now.options.filter ready.now.bound tables.now (plan_of outcome.now)) }
{
    let rows = row_counts(alloc, &ready.bound, tables)?;
    report_outcome(alloc, ready, tables, rows.as_slice(), outcome)
}

// The same, where the tables have so many rows.
fn report_outcome<'a>(
    alloc: Global,
    ready: &'a Ready,
    tables: &[Table],
    rows: &'a [u32],
    outcome: &'a Outcome,
) -> Result<Vec<u8>, Memory>
    requires ready { IsReady ready.now.bound ready.now.prepared ready.now.options }
    requires rows { rows.now ≡ counts_of ready.now.bound.query tables.now }
    requires tells { TellsRun ready.now.bound tables.now ready.now.options outcome.now }
    ensures { IfOk result (λ text. text.items
        ≡ explain_text ready.now.options.filter ready.now.bound tables.now (plan_of outcome.now)) }
{
    let run = RunPart {
        filter: ready.options.filter,
        rows,
        selected: outcome.selected.as_slice(),
        transfer: &outcome.transfer,
        joined: &outcome.joined,
    };
    report_on(
        alloc,
        ready,
        &outcome.tree,
        outcome.order.as_slice(),
        outcome.lists.as_slice(),
        Some(run),
    )
}

// How many rows each relation's table has, in the order of FROM.
fn row_counts(alloc: Global, bound: &Bound, tables: &[Table]) -> Result<Vec<u32>, Memory>
    requires { AreTables bound.now.query tables.now }
    ensures { IfOk result (λ counts. counts.items ≡ counts_of bound.now.query tables.now) }
{
    let mut counts = Vec::new(alloc);
    for relation in 0..bound.relations() {
        let rows = table_at(bound, tables, relation).rows();
        counts.push(rows)?;
    }
    Ok(counts)
}
