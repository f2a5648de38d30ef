// The link that is to be listed next.
ghost use Rattle.std.specs.Prelude.{◌≡◌, ◌+◌, ◌<◌, ◌⊎◌, [], ◌∷◌, length};
ghost use Rattle.join_graph.specs.JoinList.{listed_by, set_of};
ghost use Rattle.largest_root.specs.Steps.{IsBestSoFar, IsLinkFor};

use crate::parents::{best_parent, is_in, is_listed};
use join_graph::{Graph, Link};
use rpt_base::RelSet;

// The better of two links, of which the first has the lesser child: it weighs more, or else its child is larger, or else
// its child is the lesser.
fn better_link(graph: &Graph, sizes: &[u32], a: Link, b: Link) -> Link
    requires sizes { length sizes.now ≡ length graph.now }
    requires a_child { a.child < length graph.now }
    requires a_parent { a.parent < length graph.now }
    requires b_child { b.child < length graph.now }
    requires b_parent { b.parent < length graph.now }
    requires order { a.child < b.child }
    ensures one { (result ≡ a) ⊎ (result ≡ b) }
    ensures of_a { IsLinkFor graph.now sizes.now a.child a.parent result }
    ensures of_b { IsLinkFor graph.now sizes.now b.child b.parent result }
{
    let of_a = graph.weight(a.child, a.parent);
    let of_b = graph.weight(b.child, b.parent);
    if of_a < of_b {
        return b;
    }
    if of_b < of_a {
        return a;
    }
    if sizes[a.child as usize] < sizes[b.child as usize] {
        return b;
    }
    a
}

// The better of the best link so far and the child's best link, where the child is in the set and not listed yet.
fn better_of(
    graph: &Graph,
    sizes: &[u32],
    set: RelSet,
    root: u32,
    links: &[Link],
    best: Option<Link>,
    child: u32,
) -> Option<Link>
    requires sizes { length sizes.now ≡ length graph.now }
    requires root { root < length graph.now }
    requires child { child < length graph.now }
    requires small { child < 32 }
    requires best { IsBestSoFar graph.now sizes.now (set_of set) (listed_by (root ∷ []) links.now)
        child best }
    ensures { IsBestSoFar graph.now sizes.now (set_of set) (listed_by (root ∷ []) links.now)
        (child + 1) result }
{
    if !is_in(set, child) {
        return best;
    }
    if is_listed(root, links, child) {
        return best;
    }
    let parent = best_parent(graph, root, links, child);
    let link = Link { child, parent };
    match best {
        Some(earlier) => Some(better_link(graph, sizes, earlier, link)),
        None => Some(link),
    }
}

/// The best link of a relation of the set that isn't listed yet to one that is, if the set has such a relation.
pub(crate) fn best_link(
    graph: &Graph,
    sizes: &[u32],
    set: RelSet,
    root: u32,
    links: &[Link],
) -> Option<Link>
    requires sizes { length sizes.now ≡ length graph.now }
    requires root { root < length graph.now }
    ensures { IsBestSoFar graph.now sizes.now (set_of set) (listed_by (root ∷ []) links.now)
        (length graph.now) result }
{
    let mut best: Option<Link> = None;
    for child in 0..graph.relations() {
        best = better_of(graph, sizes, set, root, links, best, child);
    }
    best
}
