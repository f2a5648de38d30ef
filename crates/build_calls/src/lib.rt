//! Calls that cases ask of keys, builds and joins: of the crates from tables to tuples.
//!
//! `README.md` says which calls there are, and how a case is written.
#![tactic(auto)]

mod builds;
mod codes;
mod counts;
mod hashing;
mod orders;
mod pushes;
mod tables;

use case_text::{Case, CaseError};
use std::alloc::Global;
use std::thread::Threads;

/// Puts what a case's call gives, of which some may start threads. It is an error of words that the call is none of these.
pub fn put_given<R: Threads + Sync>(
    rt: &R,
    alloc: Global,
    case: &Case,
    given: &mut String,
) -> Result<(), CaseError> {
    let head = case.head.as_str();
    match case.word.as_str() {
        "build" => builds::put_build(rt, alloc, case, given),
        "codes" => codes::put_codes(alloc, case, given),
        "fnv" => {
            hashing::put_fnv(head, given);
            Ok(())
        }
        "mix" => hashing::put_mix(head, given),
        "hashes" => hashing::put_hashes(alloc, case, given),
        "push_one" => pushes::put_run(rt, alloc, head, &case.entries, given),
        "add_counts" => counts::put_sum(head, given),
        _ => Err(CaseError::Word),
    }
}
