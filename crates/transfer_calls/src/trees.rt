// Trees of relations and what their plans are made from, as they are written.
use crate::plans::places_by;
use case_text::{Case, CaseError, number_of, numbers_of, pair_of, push_read, set_read};
use join_graph::{Link, Tree};
use rpt_base::Listed;
use rpt_engine::AnyPlace;
use std::alloc::Global;
use transfer_plan::Edge;

/// A tree, the items of each relation, an edge for each link or none at all, the items of a morsel, and how many workers run its plan.
#[derive(Drop)]
pub struct Parts {
    pub tree: Tree,
    pub items: Vec<u32>,
    pub edges: Vec<Edge<AnyPlace>>,
    pub morsel: u32,
    pub workers: u32,
}

/// What a case writes: the tree behind the call's word, as `0 1>0 2>1`, and then lines `morsel N`, `items N ..` of each
/// relation, `workers N` if there are more than one, and for each link `edge COUNT: CODE .. / CODE ..`, the child's
/// codes and the parent's.
pub fn parts_of(alloc: Global, case: &Case) -> Result<Parts, CaseError> {
    let mut parts = Parts {
        tree: tree_of(alloc, case.head.as_str())?,
        items: Vec::new(alloc),
        edges: Vec::new(alloc),
        morsel: 0,
        workers: 1,
    };
    for entry in &case.entries {
        parts.take(alloc, entry.word.as_str(), entry.rest.as_str())?;
    }
    Ok(parts)
}

impl Parts {
    fn take(&mut self, alloc: Global, word: &str, rest: &str) -> Result<(), CaseError> {
        match word {
            "morsel" => set_read(&mut self.morsel, number_of(Some(rest))),
            "workers" => set_read(&mut self.workers, number_of(Some(rest))),
            "items" => set_read(&mut self.items, numbers_of(alloc, rest)),
            "edge" => push_read(&mut self.edges, edge_of(alloc, rest)),
            _ => Err(CaseError::Word),
        }
    }
}

fn tree_of(alloc: Global, text: &str) -> Result<Tree, CaseError> {
    let mut words = text.split_whitespace();
    let root = number_of(words.next())?;
    let mut links = Vec::new(alloc);
    for link in words {
        push_read(&mut links, link_of(link))?;
    }
    Ok(Tree {
        root,
        links: Listed::from_vec(links),
    })
}

fn link_of(text: &str) -> Result<Link, CaseError> {
    let Some((child, parent)) = text.split_once('>') else {
        return Err(CaseError::Word);
    };
    let (child, parent) = pair_of(Some(child), Some(parent))?;
    Ok(Link { child, parent })
}

fn edge_of(alloc: Global, text: &str) -> Result<Edge<AnyPlace>, CaseError> {
    let Some((count, codes)) = text.split_once(':') else {
        return Err(CaseError::Word);
    };
    let Some((child, parent)) = codes.split_once('/') else {
        return Err(CaseError::Word);
    };
    edge_by(alloc, number_of(Some(count))?, child, parent)
}

// An edge whose two sides have these codes below the count.
fn edge_by(
    alloc: Global,
    count: u32,
    child: &str,
    parent: &str,
) -> Result<Edge<AnyPlace>, CaseError> {
    let words = count.div_ceil(64).max(1);
    Ok(Edge {
        child: places_by(alloc, count, child)?,
        parent: places_by(alloc, count, parent)?,
        forward_words: words,
        backward_words: words,
    })
}
