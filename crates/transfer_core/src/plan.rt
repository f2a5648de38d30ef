// Plans of pipes.
use rpt_base::Listed;

/// Where a pipe reads or writes: a region of the plan, and the placement that gives the places of the pipe's items in it. Both are named by
/// their numbers in the plan, from 0.
#[derive(Clone, Copy)]
pub struct Port {
    pub region: u32,
    pub places: u32,
}

/// Items, numbered from 0; the regions that decide which of them pass; and the regions into which those that pass are put.
#[derive(Drop)]
pub struct Pipe {
    pub items: u32,
    pub reads: Listed<Port>,
    pub writes: Listed<Port>,
}

/// Pipes in order, the words of each region, the placements, and the items of a morsel. A pipe's items come in morsels, the last of which
/// may have fewer.
#[derive(Drop)]
pub struct Plan<P> {
    pub morsel: u32,
    pub words: Listed<u32>,
    pub places: Listed<P>,
    pub pipes: Listed<Pipe>,
}
