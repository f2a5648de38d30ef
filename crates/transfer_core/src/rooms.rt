// The room that an actor needs.
ghost use Rattle.std.specs.Prelude.{◌≡◌, IfOk};
ghost use Rattle.transfer_core.specs.Plans.{IsValid, shape_of};
ghost use Rattle.transfer_core.specs.States.{AreMostPuts, all_morsels};

use crate::Plan;
use key_codes::Placement;
use rpt_base::Memory;

/// The most puts of a morsel; `Memory` if no list can be as long.
pub(crate) fn most_puts<P: Placement>(plan: &Plan<P>) -> Result<usize, Memory>
    ensures { IfOk result (AreMostPuts plan.now.morsel plan.now.pipes) }
{
    let pipes = plan.pipes.as_slice();
    let mut most = 0;
    for place in 0..pipes.len() {
        let ports = pipes[place].writes.as_slice().len();
        let Some(puts) = (plan.morsel as usize).checked_mul(ports) else {
            return Err(Memory);
        };
        if puts > most {
            most = puts;
        }
    }
    Ok(most)
}

/// How many morsels all pipes have.
pub(crate) fn all_morsels<P: Placement>(plan: &Plan<P>) -> usize
    requires { IsValid (shape_of P.seen plan.now) }
    ensures { result ≡ all_morsels (shape_of P.seen plan.now) }
{
    let pipes = plan.pipes.as_slice();
    let mut all = 0;
    for place in 0..pipes.len() {
        all += pipes[place].items.div_ceil(plan.morsel) as usize;
    }
    all
}
