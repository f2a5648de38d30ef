//! Why a command has no answer, and what is told of it.
//!
//! The layers above rely on this: each refusal has one status and one line, and a line or a text that is put to a sink was taken whole, or
//! broke off where the sink's count of faults rose.
#![tactic(auto)]

mod errors;
mod message;
mod pieces;

pub use errors::Refusal;
pub use message::{put_line, status};
pub use pieces::put_text;
