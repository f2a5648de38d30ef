// The growth of a list over one set, and over two.
ghost use Rattle.std.specs.Prelude.{◌≡◌, ℕ, ◌<◌, [], ◌∷◌, ◌++◌, true, length, IfOk};
ghost use Rattle.join_graph.specs.declared.tree.Link.{Link};
ghost use Rattle.join_graph.specs.JoinList.{IsSetOf, listed_by, set_of};
ghost use Rattle.rpt_base.specs.Lists.{has};
ghost use Rattle.largest_root.specs.Greedy.{IsGrown};
ghost use Rattle.largest_root.specs.Steps.{GrowsOver};

use crate::links::best_link;
use crate::roots::root_of;
use join_graph::{Graph, Link, Tree};
use rpt_base::{Listed, Memory, RelSet};
use std::alloc::Global;

// Lists what is not listed yet of the set, behind the links that are there.
fn grow_set(
    graph: &Graph,
    sizes: &[u32],
    set: RelSet,
    root: u32,
    links: &mut Vec<Link>,
) -> Result<(), Memory>
    requires sizes { length sizes.now ≡ length graph.now }
    requires root { root < length graph.now }
    requires within { (r : ℕ) → set_of set r ≡ true → r < length graph.now }
    requires known { (r : ℕ) → has r (listed_by (root ∷ []) links.old.items) ≡ true
        → r < length graph.now }
    ensures { IfOk result (λ _. GrowsOver graph.now sizes.now set root links.old.items links.new.items) }
{
    while let Some(link) = best_link(graph, sizes, set, root, links) {
        links.push(link)?;
    }
    Ok(())
}

/// The greedy list for one set.
pub(crate) fn grow_one(
    alloc: Global,
    graph: &Graph,
    sizes: &[u32],
    set: RelSet,
) -> Result<Tree, Memory>
    requires sizes { length sizes.now ≡ length graph.now }
    requires some { IsSetOf (length graph.now) set }
    ensures { IfOk result (λ t. IsGrown graph.now sizes.now (set ∷ []) t) }
{
    let root = root_of(graph, sizes, set);
    let mut links = Vec::new(alloc);
    grow_set(graph, sizes, set, root, &mut links)?;
    Ok(Tree {
        root,
        links: Listed::from_vec(links),
    })
}

/// The greedy list for one set, and then for what another one has beyond it.
pub(crate) fn grow_two(
    alloc: Global,
    graph: &Graph,
    sizes: &[u32],
    first: RelSet,
    then: RelSet,
) -> Result<Tree, Memory>
    requires sizes { length sizes.now ≡ length graph.now }
    requires first { IsSetOf (length graph.now) first }
    requires then { IsSetOf (length graph.now) then }
    ensures { IfOk result (λ t. IsGrown graph.now sizes.now (first ∷ then ∷ []) t) }
{
    let root = root_of(graph, sizes, first);
    let mut links = Vec::new(alloc);
    grow_set(graph, sizes, first, root, &mut links)?;
    grow_set(graph, sizes, then, root, &mut links)?;
    Ok(Tree {
        root,
        links: Listed::from_vec(links),
    })
}
