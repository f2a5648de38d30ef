// Which items pass a pipe, by the words of regions.
ghost use Rattle.std.specs.Prelude.{◌≡◌, ◌<◌, All, IfOk, length};
ghost use Rattle.transfer_core.specs.Plans.{HasPlace, HavePlaceAt, HavePlaces, place_at, shape_of, words_of};
ghost use Rattle.transfer_core.specs.Sealed.{answers, passes};
ghost use Rattle.transfer_core.specs.Words.{AreSized, filled_words, regions_of};

use crate::{Pipe, Plan, Port, Sealed};
use key_codes::{Place, Placement};
use rpt_base::Memory;
use std::alloc::Global;

/// The place of an item in the region of a port.
pub(crate) fn place_in<P: Placement>(plan: &Plan<P>, port: Port, item: u32) -> Place
    requires { HasPlace (shape_of P.seen plan.now) item port }
    ensures place { result ≡ place_at (shape_of P.seen plan.now) port item }
    ensures inside { result.word < words_of (shape_of P.seen plan.now) port.region }
{
    let words = plan.words.as_slice()[port.region as usize];
    plan.places.as_slice()[port.places as usize].place(item, words)
}

/// Whether the region of a port answers yes for an item.
pub(crate) fn answers<P: Placement>(plan: &Plan<P>, words: &Sealed, port: Port, item: u32) -> bool
    requires place { HasPlace (shape_of P.seen plan.now) item port }
    requires sized { AreSized (shape_of P.seen plan.now) words.now }
    ensures { result ≡ answers (shape_of P.seen plan.now) (regions_of words.now) item port }
{
    let place = place_in(plan, port, item);
    words.word(port.region, place.word) & place.mask == place.mask
}

/// Whether an item passes: whether the region of each of these ports answers yes.
pub(crate) fn passes<P: Placement>(
    plan: &Plan<P>,
    words: &Sealed,
    reads: &[Port],
    item: u32,
) -> bool
    requires places { All (HasPlace (shape_of P.seen plan.now) item) reads.now }
    requires sized { AreSized (shape_of P.seen plan.now) words.now }
    ensures { result ≡ passes (shape_of P.seen plan.now) (regions_of words.now) item reads.now }
{
    for i in 0..reads.len() {
        if !answers(plan, words, reads[i], item) {
            return false;
        }
    }
    true
}

/// What the items of a pipe that pass put into the region of one of its ports.
pub(crate) fn filled<P: Placement>(
    alloc: Global,
    plan: &Plan<P>,
    words: &Sealed,
    pipe: &Pipe,
    port: Port,
) -> Result<Vec<u64>, Memory>
    requires reads { HavePlaces (shape_of P.seen plan.now) pipe.now.items pipe.now.reads }
    requires place { HavePlaceAt (shape_of P.seen plan.now) pipe.now.items port }
    requires region { port.region < length plan.now.words }
    requires sized { AreSized (shape_of P.seen plan.now) words.now }
    ensures { IfOk result (λ filled.
        filled.items ≡ filled_words (shape_of P.seen plan.now) words.now pipe.now port) }
{
    let count = plan.words.as_slice()[port.region as usize];
    let mut filled = vec![in alloc; 0; count as usize]?;
    for item in 0..pipe.items {
        if passes(plan, words, pipe.reads.as_slice(), item) {
            let place = place_in(plan, port, item);
            filled[place.word as usize] |= place.mask;
        }
    }
    Ok(filled)
}
