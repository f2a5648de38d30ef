// The plain run of a plan.
ghost use Rattle.std.specs.Prelude.{◌≡◌, ◌<◌, ◌+◌, IfOk, OnOk, length};
ghost use Rattle.transfer_core.specs.Plans.{IsValid, shape_of};
ghost use Rattle.transfer_core.specs.Words.{AreSealedBelow, sealed_words};

use crate::passing::filled;
use crate::{Plan, Sealed};
use key_codes::Placement;
use rpt_base::Memory;
use std::alloc::Global;

/// The sealed regions of a plan: one actor goes pipe by pipe. `Memory` where there is too little of it.
pub fn run_plain<P: Placement>(alloc: Global, plan: &Plan<P>) -> Result<Sealed, Memory>
    requires { IsValid (shape_of P.seen plan.now) }
    ensures { IfOk result (λ sealed. sealed ≡ sealed_words (shape_of P.seen plan.now)) }
{
    let mut words = Sealed::zeros(alloc, plan.words.as_slice())?;
    for place in 0..plan.pipes.as_slice().len() {
        seal_pipe(alloc, plan, &mut words, place)?;
    }
    Ok(words)
}

// Seals what a pipe writes, where all that is written by pipes before it is sealed.
fn seal_pipe<P: Placement>(
    alloc: Global,
    plan: &Plan<P>,
    words: &mut Sealed,
    place: usize,
) -> Result<(), Memory>
    requires valid { IsValid (shape_of P.seen plan.now) }
    requires place { place < length plan.now.pipes }
    requires before { AreSealedBelow (shape_of P.seen plan.now) place words.old }
    ensures { OnOk result (AreSealedBelow (shape_of P.seen plan.now) (place + 1) words.new) }
{
    let pipe = &plan.pipes.as_slice()[place];
    let writes = pipe.writes.as_slice();
    for i in 0..writes.len() {
        let port = writes[i];
        let region = filled(alloc, plan, words, pipe, port)?;
        words.replace(port.region, region);
    }
    Ok(())
}
