//! Calls that cases ask of the variables of a query's relations: of the crates on join graphs.
//!
//! `README.md` says which calls there are, and how a case is written.
#![tactic(auto)]

mod reading;
mod sets;
mod shared;
mod trees;

use case_text::{Case, CaseError};
use join_graph::Graph;
use reading::sets_of;
use sets::is_graph;
use std::alloc::Global;

/// Puts what a case's call gives. It is an error of words that the call is none of these.
pub fn put_given(alloc: Global, case: &Case, given: &mut String) -> Result<(), CaseError> {
    let sets = sets_of(alloc, case.head.as_str())?;
    if !is_graph(&sets) {
        return Err(CaseError::Range);
    }
    put_asked(alloc, &Graph::of(alloc, &sets)?, case, given)
}

// Puts what is asked of a graph.
fn put_asked(
    alloc: Global,
    graph: &Graph,
    case: &Case,
    given: &mut String,
) -> Result<(), CaseError> {
    let entries = case.entries.as_slice();
    match case.word.as_str() {
        "graph" => shared::put_graph(alloc, graph, entries, given),
        "join_tree" => trees::put_join_trees(alloc, graph, entries, given),
        "grow" => trees::put_grown(alloc, graph, entries, given),
        "safe_set" => trees::put_safe(alloc, graph, entries, given),
        _ => Err(CaseError::Word),
    }
}
