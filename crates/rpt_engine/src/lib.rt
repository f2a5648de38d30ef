//! From a bound query to its plan: whether it can be answered along an order of its relations, and how.
//!
//! `prepare` makes the graph of the relations that share variables. The layers above rely on this: it is Ok exactly where the query has a
//! join list and an order that is given is accepted or forced, and its refusals say what is missing; `allow` is its test of the order
//! alone. `plan_for` gives LargestRoot's tree, the order, and a join list for each prefix of the order that is safe. `answer` lets filters
//! go along the tree and joins the rows that they keep along the order: its tuples are the prefix join of the order, and turned to the
//! order of FROM and sorted they are the answer. Which rows are joined is said in `specs/Joins.antt` alone.
#![tactic(auto)]

mod answering;
mod edges;
mod errors;
mod laws;
mod options;
mod places;
mod planning;
mod preparing;
mod reducing;
mod selecting;

pub use answering::{Outcome, answer};
pub use errors::{AnswerError, PrepareError};
pub use laws::has_plan;
pub use options::Options;
pub use places::AnyPlace;
pub use planning::{Plan, plan_for};
pub use preparing::{Prepared, allow, prepare};
