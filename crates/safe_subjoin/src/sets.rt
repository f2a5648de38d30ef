// Whether a set of relations begins a join list.
ghost use Rattle.std.specs.Prelude.{◌≡◌, [], ◌∷◌, length, MatchResult};
ghost use Rattle.std.specs.List.{All};
ghost use Rattle.join_graph.specs.JoinList.{IsAcyclic, IsAll, IsGraph, IsSetOf, set_of};
ghost use Rattle.safe_subjoin.specs.SafeOrder.{IsSafeList, IsSetRefused};

use crate::errors::SetError;
use join_graph::{Graph, Tree};
use largest_root::grow;
use rpt_base::RelSet;
use rpt_base::limits::MAX_RELATIONS;
use std::alloc::Global;

// How many sizes there can be, one for each relation.
const MAX_SIZES: usize = MAX_RELATIONS as usize;

// The tree that grows over the set and then all relations, each of size 0, where it is a join list.
fn safe_tree(
    alloc: Global,
    graph: &Graph,
    sizes: &[u32],
    set: RelSet,
    all: RelSet,
) -> Result<Tree, SetError>
    requires sizes { length sizes.now ≡ length graph.now }
    requires zeros { All (λ size. size ≡ 0) sizes.now }
    requires set { IsSetOf (length graph.now) set }
    requires all { IsAll (length graph.now) all }
    requires graph { IsGraph graph.now }
    ensures { MatchResult result (λ t. IsSafeList graph.now (set_of set) t)
        (λ e. IsSetRefused graph.now (set_of set) e) }
{
    let Ok(tree) = grow(alloc, graph, sizes, &[set, all]) else {
        return Err(SetError::Memory);
    };
    if graph.tree_weight(&tree) == graph.needed() {
        return Ok(tree);
    }
    Err(SetError::Unsafe)
}

/// A join list that begins with the set's relations: a list with parents and running intersection, in which they come
/// before all others. Of these it is the one that `grow` gives for the set and then all relations, where each has size 0.
/// The graph has a join list, and the set isn't empty and holds only relations of the graph, numbered from 0.
///
/// `Unsafe` comes exactly where no join list begins with the set. Running intersection is what makes semijoins along a
/// join list and back enough for a join with no row in vain (Yannakakis 1981).
pub fn safe_set(alloc: Global, graph: &Graph, set: RelSet) -> Result<Tree, SetError>
    requires acyclic { IsAcyclic graph.now }
    requires set { IsSetOf (length graph.now) set }
    ensures { MatchResult result (λ t. IsSafeList graph.now (set_of set) t)
        (λ e. IsSetRefused graph.now (set_of set) e) }
{
    let zeros = [0u32; MAX_SIZES];
    let all = graph.all();
    safe_tree(alloc, graph, &zeros[..graph.relations() as usize], set, all)
}
