//! Calls that cases ask of plans of pipes, of the steps that actors take of them, and of the plans of trees: of the crates of filters.
//!
//! `README.md` says which calls there are, and how a case is written.
#![tactic(auto)]

mod boards;
mod kept;
mod parts;
mod places;
mod plans;
mod steps;
mod trees;

use case_text::{Case, CaseError};
use std::alloc::Global;
use std::thread::Threads;

/// Puts what a case's call gives, of which some start threads. It is an error of words that the call is none of these.
pub fn put_given<R: Threads + Sync>(
    rt: &R,
    alloc: Global,
    case: &Case,
    given: &mut String,
) -> Result<(), CaseError> {
    let head = case.head.as_str();
    let entries = case.entries.as_slice();
    match case.word.as_str() {
        "plan" => steps::put_plan(alloc, entries, given),
        "steps" => steps::put_steps(alloc, head, entries, given),
        "tree" => kept::put_tree(alloc, case, given),
        "kept" => kept::put_kept(rt, alloc, case, given),
        "board" => boards::put_board(rt, alloc, case, given),
        "place" => places::put_place(head, given),
        "bloom_words" => places::put_words(head, given),
        _ => Err(CaseError::Word),
    }
}
