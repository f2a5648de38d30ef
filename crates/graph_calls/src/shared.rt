// What relations share.
use case_text::{CaseError, Entry, numbers_of, put};
use join_graph::Graph;
use std::alloc::Global;

/// Puts how many relations there are, the set of all, and what a join list weighs; and then, for each line `pair`, what two
/// relations share.
pub fn put_graph(
    alloc: Global,
    graph: &Graph,
    entries: &[Entry],
    given: &mut String,
) -> Result<(), CaseError> {
    let (relations, all, needed) = (graph.relations(), graph.all().0, graph.needed());
    put(
        given,
        format_args!("relations {relations} all {all} needed {needed}\n"),
    );
    for entry in entries {
        if entry.word.as_str() != "pair" {
            return Err(CaseError::Word);
        }
        put_pair(alloc, graph, entry.rest.as_str(), given)?;
    }
    Ok(())
}

fn put_pair(alloc: Global, graph: &Graph, pair: &str, given: &mut String) -> Result<(), CaseError> {
    let pair = numbers_of(alloc, pair)?;
    let [i, j] = pair.as_slice() else {
        return Err(CaseError::Number);
    };
    if *i >= graph.relations() || *j >= graph.relations() {
        return Err(CaseError::Range);
    }
    let weight = graph.weight(*i, *j);
    let shared = graph.shared(alloc, *i, *j)?;
    let shared = shared.as_slice();
    put(given, format_args!("weight {weight} shared {shared:?}\n"));
    Ok(())
}
