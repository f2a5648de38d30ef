// Mode check: the report of how a query is answered.
ghost use Rattle.rpt_outside.specs.Whole.{bytes_of};
ghost use Rattle.rpt_engine.specs.Prepared.{IsReady};
ghost use Rattle.rpt_cli.specs.Command.{check_course};
ghost use Rattle.rpt_cli.specs.Steps.{GivesUnasked};

use crate::ready::Ready;
use crate::reports::report_on;
use refusal_lines::Refusal;
use rpt_base::limits::MAX_RELATIONS;
use rpt_engine::{has_plan, plan_for};
use std::alloc::Global;

// The sizes of as many relations as there can be, of which nothing is known.
const SIZES: [u32; MAX_RELATIONS as usize] = [0; MAX_RELATIONS as usize];

/// Reports how a query that is ready is answered, before anything is known of its tables.
pub(crate) fn check(alloc: Global, ready: &Ready) -> Result<Vec<u8>, Refusal>
    requires { IsReady ready.now.bound ready.now.prepared ready.now.options }
    ensures { GivesUnasked (check_course ready.now.bound ready.now.options.order)
        (bytes_of result) }
{
    // Its clause says that there is one plan.
    has_plan();
    let relations = ready.bound.relations() as usize;
    let plan = plan_for(
        alloc,
        &ready.prepared,
        &SIZES[..relations],
        &ready.options.order,
    )?;
    let order = plan.order.as_slice();
    let lists = plan.lists.as_slice();
    let text = report_on(alloc, ready, &plan.tree, order, lists, None)?;
    Ok(text)
}
