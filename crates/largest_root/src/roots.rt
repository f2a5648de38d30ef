// The relation that a tree begins with.
ghost use Rattle.std.specs.Prelude.{◌≡◌, ◌<◌, ◌⊎◌, length, slice_index};
ghost use Rattle.join_graph.specs.JoinList.{IsSetOf, set_of};
ghost use Rattle.largest_root.specs.Greedy.{IsLargerOf, IsLargest};
ghost use Rattle.largest_root.specs.Steps.{FindsLargestBelow};

use crate::parents::is_in;
use join_graph::Graph;
use rpt_base::RelSet;

// The larger of two relations, and the lesser of them on a tie.
fn larger(sizes: &[u32], a: u32, b: u32) -> u32
    requires a_in { a < length sizes.now }
    requires b_in { b < length sizes.now }
    requires order { a < b }
    ensures one { (result ≡ a) ⊎ (result ≡ b) }
    ensures of_a { IsLargerOf (slice_index sizes.now) a result }
    ensures of_b { IsLargerOf (slice_index sizes.now) b result }
{
    if sizes[a as usize] < sizes[b as usize] {
        return b;
    }
    a
}

// The largest relation of the set, if it has any, and the least of them on a tie.
fn largest(graph: &Graph, sizes: &[u32], set: RelSet) -> Option<u32>
    requires { length sizes.now ≡ length graph.now }
    ensures { FindsLargestBelow sizes.now (set_of set) (length graph.now) result }
{
    let mut best: Option<u32> = None;
    for relation in 0..graph.relations() {
        if is_in(set, relation) {
            best = match best {
                Some(earlier) => Some(larger(sizes, earlier, relation)),
                None => Some(relation),
            };
        }
    }
    best
}

/// The largest relation of a set that isn't empty, and the least of them on a tie.
pub(crate) fn root_of(graph: &Graph, sizes: &[u32], set: RelSet) -> u32
    requires sizes { length sizes.now ≡ length graph.now }
    requires some { IsSetOf (length graph.now) set }
    ensures { IsLargest (slice_index sizes.now) (set_of set) result }
{
    match largest(graph, sizes, set) {
        Some(root) => root,
        None => unreachable!(),
    }
}
