// The trees of relations.
ghost use Rattle.std.specs.Prelude.{IfOk};
ghost use Rattle.join_graph.specs.JoinList.{IsAcyclic};

use crate::sets::is_set_of;
use case_text::{CaseError, Entry, numbers_of, put};
use join_graph::{Graph, Tree};
use largest_root::{TreeError, grow, join_tree};
use rpt_base::RelSet;
use rpt_base::limits::MAX_RELATIONS;
use safe_subjoin::{SetError, safe_set};
use std::alloc::Global;

const SIZES: [u32; MAX_RELATIONS as usize] = [0; MAX_RELATIONS as usize];

/// Puts the tree of a query for each line `sizes` and what it weighs, or why it has none.
pub fn put_join_trees(
    alloc: Global,
    graph: &Graph,
    entries: &[Entry],
    given: &mut String,
) -> Result<(), CaseError> {
    for entry in entries {
        let sizes = sizes_of(alloc, graph, entry)?;
        if sizes.len() != graph.relations() as usize {
            return Err(CaseError::Range);
        }
        match join_tree(alloc, graph, &sizes) {
            Ok(tree) => {
                let weight = graph.tree_weight(&tree);
                put_tree(&tree, given);
                put(given, format_args!("weight {weight}\n"));
            }
            Err(TreeError::Cyclic { best, needed }) => put(
                given,
                format_args!("cyclic {best} of {needed}\n"),
            ),
            Err(TreeError::Memory) => return Err(CaseError::Memory),
        }
    }
    Ok(())
}

fn sizes_of(alloc: Global, graph: &Graph, entry: &Entry) -> Result<Vec<u32>, CaseError> {
    match entry.word.as_str() {
        "sizes" => numbers_of(alloc, entry.rest.as_str()),
        _ => Err(CaseError::Word),
    }
}

/// Puts the tree that grows for the sizes of the first line, where the relations of the second, if there is one, are listed
/// before the rest; and what its links weigh.
pub fn put_grown(
    alloc: Global,
    graph: &Graph,
    entries: &[Entry],
    given: &mut String,
) -> Result<(), CaseError> {
    let tree = match entries {
        [sizes] => grown(alloc, graph, &sizes_of(alloc, graph, sizes)?),
        [sizes, first] => {
            let sizes = sizes_of(alloc, graph, sizes)?;
            grown_from(alloc, graph, &sizes, set_of(alloc, first)?)
        }
        _ => return Err(CaseError::Word),
    };
    put_weighed(graph, &tree?, given);
    Ok(())
}

fn grown(alloc: Global, graph: &Graph, sizes: &[u32]) -> Result<Tree, CaseError> {
    if sizes.len() != graph.relations() as usize {
        return Err(CaseError::Range);
    }
    Ok(grow(alloc, graph, sizes, &[graph.all()])?)
}

// The tree that lists the relations of a set before the rest.
fn grown_from(
    alloc: Global,
    graph: &Graph,
    sizes: &[u32],
    first: RelSet,
) -> Result<Tree, CaseError> {
    let relations = graph.relations();
    if sizes.len() != relations as usize || !is_set_of(relations, first) {
        return Err(CaseError::Range);
    }
    Ok(grow(alloc, graph, sizes, &[first, graph.all()])?)
}

fn put_weighed(graph: &Graph, tree: &Tree, given: &mut String) {
    put_tree(tree, given);
    put_weights(graph, tree, given);
}

// The weights of the links of a tree that needn't be a join list.
fn put_weights(graph: &Graph, tree: &Tree, given: &mut String) {
    put(given, "weights");
    for link in tree.links.as_slice() {
        if link.child < graph.relations() && link.parent < graph.relations() {
            put(
                given,
                format_args!(" {}", graph.weight(link.child, link.parent)),
            );
        }
    }
    put(given, "\n");
}

// The set of the relations of a line `set`.
fn set_of(alloc: Global, entry: &Entry) -> Result<RelSet, CaseError> {
    if entry.word.as_str() != "set" {
        return Err(CaseError::Word);
    }
    let mut set = 0;
    for relation in numbers_of(alloc, entry.rest.as_str())? {
        if relation >= 32 {
            return Err(CaseError::Range);
        }
        set |= 1u32 << relation;
    }
    Ok(RelSet(set))
}

/// Puts for each line `set` a join list that begins with its relations, or that there is none.
pub fn put_safe(
    alloc: Global,
    graph: &Graph,
    entries: &[Entry],
    given: &mut String,
) -> Result<(), CaseError> {
    let relations = graph.relations();
    has_tree(alloc, graph)?;
    for entry in entries {
        let set = set_of(alloc, entry)?;
        if !is_set_of(relations, set) {
            return Err(CaseError::Range);
        }
        match safe_set(alloc, graph, set) {
            Ok(tree) => put_tree(&tree, given),
            Err(SetError::Unsafe) => put(given, "unsafe\n"),
            Err(SetError::Memory) => return Err(CaseError::Memory),
        }
    }
    Ok(())
}

// Finds that a query has a tree.
fn has_tree(alloc: Global, graph: &Graph) -> Result<(), CaseError>
    ensures { IfOk result (λ _. IsAcyclic graph.now) }
{
    match join_tree(alloc, graph, &SIZES[..graph.relations() as usize]) {
        Ok(_) => Ok(()),
        Err(_) => Err(CaseError::Range),
    }
}

// The root, and each further relation with its parent.
fn put_tree(tree: &Tree, given: &mut String) {
    put(given, tree.root);
    for link in tree.links.as_slice() {
        put(given, format_args!(" {}>{}", link.child, link.parent));
    }
    put(given, "\n");
}
