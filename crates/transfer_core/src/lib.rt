//! Pipes of items between regions, and the steps by which actors fill the regions.
//!
//! A plan has pipes in order. An item passes a pipe where each region that the pipe reads answers yes for it, and each item that passes is
//! put into each region that the pipe writes. What a region has in the end, sealed, doesn't depend on who puts what, and when.
//!
//! Contracts see a plan as its shape: its pipes, the words of its regions and the numbers of its placements. The layers above rely on
//! this: `run_plain` gives the sealed regions, and whatever list of steps is taken, by however many actors, the state is sound. A word
//! that an actor may read, of a region whose pipe it has seen full, is then the sealed one.
#![tactic(auto)]

mod allowed;
mod known;
pub mod laws;
pub mod limits;
mod passing;
mod plain;
mod plan;
mod rooms;
mod sealed;
mod state;
mod steps;
mod taking;
mod validity;

pub use plain::run_plain;
pub use plan::{Pipe, Plan, Port};
pub use sealed::Sealed;
pub use state::{State, step};
pub use steps::Step;
pub use validity::valid;
