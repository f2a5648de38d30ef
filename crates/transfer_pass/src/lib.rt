//! The transfer phase, run by workers in rounds, and what it keeps.
//!
//! All workers share one board, and each has a hand of its own. In a round a worker passes the gate, and then goes over the pipes
//! in order: on each pipe whose reads it has seen full it works, morsel by morsel, until none is left to draw. What it has not seen
//! full it looks for first, a bounded number of times, since another worker's last morsels are mostly done soon. Between two rounds
//! the hands become one, which looks at each pipe whether it is full, and is split again. The run takes no memory, and is refused
//! nothing.
//!
//! Contracts see a run as the plan's pipes and the words of its regions. The layers above rely on this: whatever the workers, and
//! however their steps fall between each other's, the words are the sealed ones of the plan; an item of a relation is kept exactly
//! where the region that is written last with the relation's rows has its bit; and the rows of the items that are kept come in
//! order.
#![tactic(auto)]

mod hands;
mod items;
mod kept;
mod morsels;
mod rounds;

pub use kept::TransferRun;
pub use rounds::run;
pub use transfer_plan::{Edge, plan_of};
