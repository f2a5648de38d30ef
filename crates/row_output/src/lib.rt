//! The answer of a bound query, and its text.
//!
//! `ordered` makes the tuples of a join an answer, and `text` writes it. The layers above rely on this: the answer's lists are the
//! tuples, each turned to the order of FROM, in lexicographic order and with equal ones all kept, and the text is the record of the
//! titles and then one record for each list, as the default writer of the crate `csv` writes them.
#![tactic(auto)]

mod answer;
mod cells;
mod order;
mod output;
mod sorting;
mod turning;

pub use answer::Answer;
pub use order::ordered;
pub use output::text;
