// The report of a query that is ready.
ghost use Rattle.std.specs.Prelude.{◌≡◌, IfOk, IfSome, length};
ghost use Rattle.std.specs.Option.{option_map};
ghost use Rattle.plan_report.specs.Report.{report_of};
ghost use Rattle.plan_report.specs.Run.{IsRunOf, run_counts};
ghost use Rattle.rpt_engine.specs.Prepared.{IsReady};
ghost use Rattle.rpt_cli.specs.Steps.{IsPlanFor};

use crate::ready::Ready;
use join_graph::Tree;
use plan_report::{ReportInput, RunPart, report};
use rpt_base::Memory;
use std::alloc::Global;

/// Reports a plan of a query that is ready, and a run over its tables if there was one.
pub(crate) fn report_on<'a>(
    alloc: Global,
    ready: &'a Ready,
    tree: &'a Tree,
    order: &'a [u32],
    lists: &'a [Option<Tree>],
    run: Option<RunPart<'a>>,
) -> Result<Vec<u8>, Memory>
    requires ready { IsReady ready.now.bound ready.now.prepared ready.now.options }
    requires plan { IsPlanFor ready.now.bound ready.now.options
        (record { tree = tree.now; order = order.now; lists = lists.now }) }
    requires run { IfSome run (IsRunOf (length ready.now.bound.query.table_of)) }
    ensures { IfOk result (λ text. text.items ≡ report_of ready.now.bound.query ready.now.bound.known
        tree.now order.now lists.now (option_map run_counts run.entry)) }
{
    // Its clauses say that there is a set of variables for each relation.
    let _relations = ready.bound.relations();
    let input = ReportInput {
        bound: &ready.bound,
        graph: &ready.prepared.graph,
        tree,
        order,
        lists,
        run,
    };
    report(alloc, &input)
}
