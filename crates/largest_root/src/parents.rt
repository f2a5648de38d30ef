// The parent that a relation is to hang on.
ghost use Rattle.std.specs.Prelude.{◌≡◌, ◌<◌, ◌⊎◌, ◌==◌, [], ◌∷◌, true, length};
ghost use Rattle.std.specs.List.{list_any};
ghost use Rattle.join_graph.specs.JoinList.{listed_by, set_of};
ghost use Rattle.rpt_base.specs.Lists.{has};
ghost use Rattle.largest_root.specs.Steps.{IsBestParent, IsParentFor};

use join_graph::{Graph, Link};
use rpt_base::RelSet;

/// Whether a relation is in the set.
pub(crate) fn is_in(set: RelSet, relation: u32) -> bool
    requires { relation < 32 }
    ensures { result ≡ set_of set relation }
{
    (set.0 >> relation) & 1 == 1
}

// Whether a relation is a link's child.
fn is_child(links: &[Link], relation: u32) -> bool
    ensures { result ≡ list_any (λ l. relation == l.child) links.now }
{
    links.iter().any(|link| relation == link.child)
}

/// Whether a relation is listed.
pub(crate) fn is_listed(root: u32, links: &[Link], relation: u32) -> bool
    ensures { result ≡ has relation (listed_by (root ∷ []) links.now) }
{
    relation == root || is_child(links, relation)
}

// The better of two parents: it shares more variables with the child, or else it is the lesser.
fn better_parent(graph: &Graph, child: u32, a: u32, b: u32) -> u32
    requires child { child < length graph.now }
    requires a_in { a < length graph.now }
    requires b_in { b < length graph.now }
    ensures one { (result ≡ a) ⊎ (result ≡ b) }
    ensures of_a { IsParentFor graph.now child a result }
    ensures of_b { IsParentFor graph.now child b result }
{
    let with_a = graph.weight(child, a);
    let with_b = graph.weight(child, b);
    if with_a < with_b {
        return b;
    }
    if with_b < with_a {
        return a;
    }
    if b < a {
        return b;
    }
    a
}

/// The best of the listed relations as a parent of the child.
pub(crate) fn best_parent(graph: &Graph, root: u32, links: &[Link], child: u32) -> u32
    requires root { root < length graph.now }
    requires child { child < length graph.now }
    ensures known { result < length graph.now }
    ensures shown { has result (listed_by (root ∷ []) links.now) ≡ true }
    ensures best { IsBestParent graph.now (listed_by (root ∷ []) links.now) child (length graph.now)
        result }
{
    let mut best = root;
    for parent in 0..graph.relations() {
        if is_listed(root, links, parent) {
            best = better_parent(graph, child, best, parent);
        }
    }
    best
}
