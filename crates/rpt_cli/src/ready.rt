// A query that is ready to be answered, in the order that is given.
ghost use Rattle.std.specs.Prelude.{◌≡◌, ◌⊎◌, Err, IfErr, IfOk, Ok};
ghost use Rattle.command_words.specs.Words.{IsWithinLimits};
ghost use Rattle.refusal_lines.specs.declared.errors.Refusal.TheVariants.{Memory};
ghost use Rattle.rpt_engine.specs.Prepared.{IsReady};
ghost use Rattle.rpt_cli.specs.Matters.{IsPrepared};
ghost use Rattle.rpt_cli.specs.Steps.{why_unprepared};

use crate::orders::order_of;
use binder::Bound;
use command_words::Command;
use refusal_lines::Refusal;
use rpt_engine::{Options, PrepareError, Prepared, allow, prepare};
use std::alloc::Global;

/// What each mode starts from.
#[derive(Drop)]
pub(crate) struct Ready {
    pub(crate) bound: Bound,
    pub(crate) prepared: Prepared,
    pub(crate) options: Options,
}

/// Prepares a query, which is answered as the command says. It is refused where it has no join list, then where the order's pieces
/// aren't its relations, and then where the order isn't accepted.
pub(crate) fn make_ready(alloc: Global, bound: Bound, command: &Command) -> Result<Ready, Refusal>
    requires fits { IsWithinLimits command.now }
    ensures bound { IfOk result (λ ready. ready.bound ≡ bound) }
    ensures ready { IfOk result (λ ready. IsReady ready.bound ready.prepared ready.options) }
    ensures filter { IfOk result (λ ready. ready.options.filter ≡ command.now.filter) }
    ensures found { IfOk result (λ ready. IsPrepared bound.query command.now.order command.now.force
        (Ok (record { known = bound.known; order = ready.options.order }))) }
    ensures refused { IfErr result (λ e. (e ≡ Memory)
        ⊎ IsPrepared bound.query command.now.order command.now.force (Err e)) }
{
    match prepare_for(alloc, &bound, command) {
        Ok((prepared, options)) => Ok(Ready {
            bound,
            prepared,
            options,
        }),
        Err(refusal) => {
            drop(bound);
            Err(refusal)
        }
    }
}

// The same of a query that is lent: one that is held where a function branches makes its proof much larger.
fn prepare_for(
    alloc: Global,
    bound: &Bound,
    command: &Command,
) -> Result<(Prepared, Options), Refusal>
    requires fits { IsWithinLimits command.now }
    ensures ready { IfOk result (λ made. IsReady bound.now made.0 made.1) }
    ensures filter { IfOk result (λ made. made.1.filter ≡ command.now.filter) }
    ensures found { IfOk result (λ made. IsPrepared bound.now.query command.now.order command.now.force
        (Ok (record { known = bound.now.known; order = made.1.order }))) }
    ensures refused { IfErr result (λ e. (e ≡ Memory)
        ⊎ IsPrepared bound.now.query command.now.order command.now.force (Err e)) }
{
    let mut options = Options {
        filter: command.filter,
        workers: command.workers,
        morsel: command.morsel,
        order: None,
        force: command.force,
    };
    // What the variables are is told with their sets.
    let _sets = bound.var_sets();
    // Whether there is a join list comes first.
    let prepared = match prepare(alloc, bound, &options) {
        Ok(prepared) => prepared,
        Err(error) => return Err(refusal_of(error)),
    };
    let given = match order_of(alloc, bound, &command.order) {
        Ok(given) => given,
        Err(refusal) => return Err(refusal),
    };
    if let Err(error) = allow(alloc, &prepared, &given, command.force) {
        return Err(refusal_of(error));
    }
    options.order = given;
    Ok((prepared, options))
}

fn refusal_of(error: PrepareError) -> Refusal
    ensures { result ≡ why_unprepared error }
{
    match error {
        PrepareError::Cyclic { best, needed } => Refusal::Cyclic { best, needed },
        PrepareError::UnsafeOrder { prefix } => Refusal::UnsafeOrder { prefix },
        PrepareError::Memory => Refusal::Memory,
    }
}
