//! Calls that cases ask of files, sinks and gates: of what lies outside of the program.
//!
//! `README.md` says which calls there are, and how a case is written.
#![tactic(auto)]

mod reads;
mod sinks;
mod writers;

use case_text::{Case, CaseError, pair_of, put};
use rpt_outside::{Gate, OpenGate};
use std::alloc::Global;
use std::rt::Files as Host;

/// Puts what a case's call gives, of which some read files. It is an error of words that the call is none of these.
pub fn put_given<R: Host + Drop>(
    rt: R,
    alloc: Global,
    case: &Case,
    given: &mut String,
) -> Result<(), CaseError> {
    let head = case.head.as_str();
    let entries = case.entries.as_slice();
    match case.word.as_str() {
        "memory_files" => reads::put_memory(alloc, head, entries, given),
        "folder_files" => reads::put_folder(rt, alloc, entries, given),
        "memory_sink" => sinks::put_memory(alloc, head, entries, given),
        "dripping_stream" => sinks::put_dripping(alloc, head, entries, given),
        "broken_stream" => sinks::put_broken(alloc, head, entries, given),
        "open_gate" => put_gate(head, given),
        _ => Err(CaseError::Word),
    }
}

// Passes a gate in a round, as a worker.
fn put_gate(head: &str, given: &mut String) -> Result<(), CaseError> {
    let mut words = head.split_whitespace();
    let (round, worker) = pair_of(words.next(), words.next())?;
    OpenGate.pass(round, worker);
    put(given, "passed\n");
    Ok(())
}
