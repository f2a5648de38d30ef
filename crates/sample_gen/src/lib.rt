//! A sample to try the program with: a script and its tables, made from a number.
//!
//! The layers above rely on this: the script is `sample_script` and within the limit of scripts, and the names and texts of the
//! tables are `sample_tables` of the number, so that each number has one sample. Want of memory is the one error.
#![tactic(auto)]

mod draws;
mod making;
mod parts;
mod pieces;
mod tables;

pub use making::sample;
pub use parts::Sample;
