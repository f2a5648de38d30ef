// The trees of a query.
ghost use Rattle.std.specs.Prelude.{◌≡◌, length, IfOk, MatchResult};
ghost use Rattle.largest_root.specs.Greedy.{IsChain, IsGrown, IsHeaviest, IsLargestRoot, IsRefused};

use crate::errors::TreeError;
use crate::growth::{grow_one, grow_two};
use join_graph::{Graph, Tree};
use rpt_base::{Memory, RelSet};
use std::alloc::Global;

/// The tree that grows over a chain of sets, each of which is listed before what is outside of it. Relations are numbered
/// from 0, and each has a size. The chain is the set of all relations alone, or a set and then the set of all.
///
/// The root is the largest relation of the first set, and the least of them on a tie. Then each link is the best of those
/// from a relation of the set that isn't listed yet, the child, to one that is, the parent: the heaviest; on a tie that
/// with the largest child; then that with the least child; and then that with the least parent. It is the rule of
/// LargestRoot (Robust Predicate Transfer, SIGMOD 2025); how ties are broken is this project's own. The tree is heaviest
/// among the lists with parents that list each set of the chain before what is outside of it.
pub fn grow(alloc: Global, graph: &Graph, sizes: &[u32], chain: &[RelSet]) -> Result<Tree, Memory>
    requires sizes { length sizes.now ≡ length graph.now }
    requires chain { IsChain (length graph.now) chain.now }
    ensures greedy { IfOk result (λ t. IsGrown graph.now sizes.now chain.now t) }
    ensures heaviest { IfOk result (λ t. IsHeaviest graph.now chain.now t) }
{
    // The clauses of `relations` say that there is one.
    let _relations = graph.relations();
    if chain.len() == 1 {
        return grow_one(alloc, graph, sizes, chain[0]);
    }
    grow_two(alloc, graph, sizes, chain[0], chain[1])
}

/// The tree that grows over all relations, which have these sizes, where it is a join list: where the variables that a
/// relation shares with any relation before it lie in its parent (running intersection), so that semijoins along the tree
/// and back keep just what the join needs (Yannakakis 1981). `grow` says how it grows.
///
/// `Cyclic` comes exactly where the relations have no join list.
pub fn join_tree(alloc: Global, graph: &Graph, sizes: &[u32]) -> Result<Tree, TreeError>
    requires { length sizes.now ≡ length graph.now }
    ensures { MatchResult result (λ t. IsLargestRoot graph.now sizes.now t)
        (λ e. IsRefused graph.now e) }
{
    let Ok(tree) = grow_one(alloc, graph, sizes, graph.all()) else {
        return Err(TreeError::Memory);
    };
    let needed = graph.needed();
    let best = graph.tree_weight(&tree);
    if best == needed {
        return Ok(tree);
    }
    Err(TreeError::Cyclic { best, needed })
}
