// Which plans are valid.
ghost use Rattle.std.specs.Prelude.{◌≡◌, ◌<◌, ◌≤◌, ◌↔◌, ◌==◌, IsTrue, filter, length};
ghost use Rattle.std.specs.List.{list_all, list_any};
ghost use Rattle.transfer_core.specs.Plans.{AreRegions, ArePipes, IsPipe, IsRegion, IsValid, are_written, is_written, serves};
ghost use Rattle.transfer_core.specs.Plans.{shape_of, writers_of};

use crate::limits::{MAX_PIPES, MAX_WRITES};
use crate::{Pipe, Plan, Port};
use key_codes::Placement;
use rpt_base::limits::is_morsel;

// Whether a port's region and placement are there, and fit each other and a pipe of so many items.
fn serves<P: Placement>(plan: &Plan<P>, items: u32, port: &Port) -> bool
    ensures { result ≡ serves (shape_of P.seen plan.now) items port.now }
{
    let words = plan.words.as_slice();
    let places = plan.places.as_slice();
    if port.region as usize >= words.len() || port.places as usize >= places.len() {
        return false;
    }
    let placement = &places[port.places as usize];
    placement.items() == items && placement.least_words() <= words[port.region as usize]
}

// Whether each of these ports does.
fn all_serve<P: Placement>(plan: &Plan<P>, items: u32, ports: &[Port]) -> bool
    ensures { result ≡ list_all (serves (shape_of P.seen plan.now) items) ports.now }
{
    ports.iter().all(|port| serves(plan, items, port))
}

// How many of a pipe's ports write a region.
fn writes_of(pipe: &Pipe, region: usize) -> usize
    ensures { result ≡ length (filter (λ a. a.region == region) pipe.now.writes) }
{
    pipe.writes
        .as_slice()
        .iter()
        .filter(|port| port.region as usize == region)
        .count()
}

// Whether one port of one of the pipes writes a region.
fn is_written_once(pipes: &[Pipe], region: usize) -> bool
    ensures { IsTrue result ↔ (writers_of pipes.now region ≡ 1) }
{
    let mut writers = 0;
    for i in 0..pipes.len() {
        let more = writes_of(&pipes[i], region);
        if more > 1 - writers {
            return false;
        }
        writers += more;
    }
    writers == 1
}

// Whether a pipe writes a region.
pub(crate) fn writes(pipe: &Pipe, region: u32) -> bool
    ensures { result ≡ list_any (λ a. a.region == region) pipe.now.writes }
{
    pipe.writes
        .as_slice()
        .iter()
        .any(|port| port.region == region)
}

// Whether one of the pipes does.
fn is_written(pipes: &[Pipe], region: u32) -> bool
    ensures { result ≡ is_written pipes.now region }
{
    pipes.iter().any(|pipe| writes(pipe, region))
}

// Whether what a pipe reads is written by pipes before it.
fn reads_earlier(pipes: &[Pipe], place: usize) -> bool
    requires { place < length pipes.now }
    ensures { result ≡ are_written pipes.now place }
{
    all_written(&pipes[..place], pipes[place].reads.as_slice())
}

// Whether some of the pipes writes the region of each of these ports.
fn all_written(pipes: &[Pipe], ports: &[Port]) -> bool
    ensures { result ≡ list_all (λ a. is_written pipes.now a.region) ports.now }
{
    ports.iter().all(|port| is_written(pipes, port.region))
}

// Whether a region has a word, and one port of one pipe writes it.
fn is_region<P: Placement>(plan: &Plan<P>, region: usize) -> bool
    requires { region < length plan.now.words }
    ensures { IsTrue result ↔ IsRegion (shape_of P.seen plan.now) region }
{
    plan.words.as_slice()[region] >= 1 && is_written_once(plan.pipes.as_slice(), region)
}

// Whether that holds of each region.
fn are_regions<P: Placement>(plan: &Plan<P>) -> bool
    ensures { IsTrue result ↔ AreRegions (shape_of P.seen plan.now) }
{
    for region in 0..plan.words.as_slice().len() {
        if !is_region(plan, region) {
            return false;
        }
    }
    true
}

// Whether a pipe's ports are few enough, each of them serves the pipe's items, and pipes before it write what it reads.
fn is_pipe<P: Placement>(plan: &Plan<P>, place: usize) -> bool
    requires { place < length plan.now.pipes }
    ensures { IsTrue result ↔ IsPipe (shape_of P.seen plan.now) place }
{
    let pipes = plan.pipes.as_slice();
    let pipe = &pipes[place];
    let reads = pipe.reads.as_slice();
    let writes = pipe.writes.as_slice();
    if writes.len() > MAX_WRITES || !reads_earlier(pipes, place) {
        return false;
    }
    all_serve(plan, pipe.items, reads) && all_serve(plan, pipe.items, writes)
}

// Whether that holds of each pipe.
fn are_pipes<P: Placement>(plan: &Plan<P>) -> bool
    ensures { IsTrue result ↔ ArePipes (shape_of P.seen plan.now) }
{
    for place in 0..plan.pipes.as_slice().len() {
        if !is_pipe(plan, place) {
            return false;
        }
    }
    true
}

/// Whether a plan is valid: it has 1 to 128 pipes; each port names a region and a placement of the plan, the placement has its pipe's items
/// and the region the words that the placement asks for; a pipe writes by fewer than 2^32 ports; each region has a word, is written by one
/// port of one pipe, and is read by later pipes alone; and a morsel has 64 to 65,536 items, a multiple of 64.
pub fn valid<P: Placement>(plan: &Plan<P>) -> bool
    ensures { IsTrue result ↔ IsValid (shape_of P.seen plan.now) }
{
    let pipes = plan.pipes.as_slice().len();
    if pipes == 0 || pipes > MAX_PIPES || !is_morsel(plan.morsel) {
        return false;
    }
    are_regions(plan) && are_pipes(plan)
}
