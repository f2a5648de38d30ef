//! The filter board: the words of all regions of a plan, which many workers seal together.
//!
//! The words lie in one table, behind a counter of drawn morsels and one of finished morsels for each pipe. A worker steps with
//! its hand: it draws a morsel of a pipe, puts the items that pass, and finishes the morsel. Each draw and each end of a morsel is
//! one atomic step, and items whose places are in one word are put by at most two. A step takes no memory and waits for nobody.
//! Between any two steps the board is a sound state, as the core over steps says it, whoever made which step. The layers above
//! rely on this: where a hand has seen a pipe full, each region that the pipe writes is the sealed one.
#![tactic(auto)]

mod board;
mod closing;
mod drawing;
mod hand;
mod looking;
mod making;
mod readiness;
mod rule;
mod setup;
mod share;
mod sharing;

pub use board::Board;
pub use hand::Hand;
