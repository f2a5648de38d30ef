// Mode run: the answer of a query.
ghost use Rattle.std.specs.Prelude.{◌≡◌, IfOk};
ghost use Rattle.bound_query.specs.Answer.{AreTables};
ghost use Rattle.rpt_outside.specs.Seen.{seen};
ghost use Rattle.rpt_outside.specs.Whole.{bytes_of};
ghost use Rattle.rpt_engine.specs.Answered.{GivesAnswer};
ghost use Rattle.rpt_engine.specs.Prepared.{IsReady};
ghost use Rattle.rpt_cli.specs.Command.{answer_text, run_course};
ghost use Rattle.rpt_cli.specs.Course.{Gives};
ghost use Rattle.rpt_cli.specs.Steps.{AreKept};

use crate::joins::answer_query;
use crate::ready::Ready;
use binder::Bound;
use column_table::Table;
use refusal_lines::Refusal;
use row_output::{ordered, text};
use rpt_base::{Memory, Str};
use rpt_engine::Outcome;
use rpt_outside::{Files, Gate};
use std::alloc::Global;
use std::thread::Threads;

/// Loads the tables of a query that is ready, and answers it over them.
pub(crate) fn run<R: Threads + Sync, F: Files, G: Gate + Sync>(
    rt: &R,
    alloc: Global,
    ready: &Ready,
    folder: &Str,
    files: &mut F,
    gate: &G,
) -> Result<Vec<u8>, Refusal>
    requires { IsReady ready.now.bound ready.now.prepared ready.now.options }
    ensures gives { Gives (seen F.Files files.old files.new)
        (run_course ready.now.options.filter folder.now ready.now.bound ready.now.options.order) (bytes_of result) }
    ensures kept { AreKept F.Files files.old files.new }
{
    let found = answer_query(rt, alloc, ready, folder, files, gate)?;
    let tables = found.tables.as_slice();
    let text = answer_text(rt, alloc, &ready.bound, tables, &found.outcome);
    // Dropped by a call: what is held where a function branches makes its proof much larger.
    drop(found);
    let text = text?;
    Ok(text)
}

/// The text of the tuples of all relations, however they were joined.
pub(crate) fn answer_text<R: Threads + Sync>(
    rt: &R,
    alloc: Global,
    bound: &Bound,
    tables: &[Table],
    outcome: &Outcome,
) -> Result<Vec<u8>, Memory>
    requires tables { AreTables bound.now.query tables.now }
    requires answer { GivesAnswer bound.now tables.now outcome.now }
    ensures { IfOk result (λ text. text.items ≡ answer_text bound.now tables.now) }
{
    let answer = ordered(rt, alloc, &outcome.joined, outcome.order.as_slice())?;
    text(alloc, &answer, bound, tables)
}
