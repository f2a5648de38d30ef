// A query that is bound, answered in a command's mode.
ghost use Rattle.std.specs.Prelude.{◌≡◌};
ghost use Rattle.rpt_outside.specs.Seen.{seen};
ghost use Rattle.rpt_outside.specs.Whole.{bytes_of};
ghost use Rattle.rpt_engine.specs.Prepared.{IsReady};
ghost use Rattle.command_words.specs.Words.{IsWithinLimits};
ghost use Rattle.rpt_cli.specs.Command.{mode_course, query_course};
ghost use Rattle.rpt_cli.specs.Course.{Gives};
ghost use Rattle.rpt_cli.specs.Steps.{AreKept};

use crate::check::check;
use crate::explain::explain;
use crate::ready::{Ready, make_ready};
use crate::run::run;
use crate::summary::summary;
use binder::Bound;
use column_classes::has_variables;
use command_words::{Command, Mode};
use largest_root::has_tree;
use refusal_lines::Refusal;
use rpt_outside::{Files, Gate};
use safe_subjoin::has_first_unsafe;
use std::alloc::Global;
use std::thread::Threads;

/// Prepares a query, and answers it as the command says.
pub(crate) fn answer_bound<R: Threads + Sync, F: Files, G: Gate + Sync>(
    rt: &R,
    alloc: Global,
    command: &Command,
    bound: Bound,
    files: &mut F,
    gate: &G,
) -> Result<Vec<u8>, Refusal>
    requires fits { IsWithinLimits command.now }
    ensures gives { Gives (seen F.Files files.old files.new)
        (query_course command.now bound.query) (bytes_of result) }
    ensures kept { AreKept F.Files files.old files.new }
{
    // Their clauses say that a query is prepared in one way, or refused for one reason.
    has_variables();
    has_tree();
    has_first_unsafe();
    match make_ready(alloc, bound, command) {
        Ok(ready) => in_mode(rt, alloc, command, &ready, files, gate),
        Err(refusal) => Err(refusal),
    }
}

// Answers a query that is ready, in the command's mode.
fn in_mode<R: Threads + Sync, F: Files, G: Gate + Sync>(
    rt: &R,
    alloc: Global,
    command: &Command,
    ready: &Ready,
    files: &mut F,
    gate: &G,
) -> Result<Vec<u8>, Refusal>
    requires ready { IsReady ready.now.bound ready.now.prepared ready.now.options }
    requires filter { ready.now.options.filter ≡ command.now.filter }
    ensures gives { Gives (seen F.Files files.old files.new)
        (mode_course command.now.mode command.now.filter command.now.folder ready.now.bound
        ready.now.options.order) (bytes_of result) }
    ensures kept { AreKept F.Files files.old files.new }
{
    match command.mode {
        Mode::Run => run(rt, alloc, ready, &command.folder, files, gate),
        Mode::Explain => explain(rt, alloc, ready, &command.folder, files, gate),
        Mode::Check => check(alloc, ready),
        Mode::Sample => summary(rt, alloc, ready, &command.folder, files, gate),
    }
}
