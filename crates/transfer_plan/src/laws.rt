// What holds of the plan of each tree.
ghost use Rattle.std.specs.Prelude.{◌≡◌, ℕ, List, length};
ghost use Rattle.join_graph.specs.declared.tree.Link.{Link};
ghost use Rattle.join_graph.specs.JoinList.{HasParents};
ghost use Rattle.transfer_plan.specs.Laws.{HasAlikeEdges, HasExactEdges, KeepsAtRoot, KeepsBackward, NumbersRegions, PassesAll};
ghost use Rattle.transfer_plan.specs.Laws.{PassesByFilters, PassesByNumbers, PassesFound};
ghost use Rattle.transfer_plan.specs.Passing.{IsMade, TreePlan};

use key_codes::Placement;

/// The regions of a tree's plan are numbered in the order in which the pipes write them, each is written by one port of one
/// pipe, and what a pipe reads is written by pipes before it.
pub fn numbers_regions()
    ensures { (n root : ℕ) (links : List Link) → HasParents n root links
        → NumbersRegions root links }
{}

/// An item passes its relation's forward pipe where for each child some item that passes the child's has the same number on
/// their edge. Backward all of these pass of the root, and of another relation those whose number an item of its parent has
/// that passes backward. With exact placements no others pass; with others just those that the filters of the passing items
/// answer yes for. Where no keys are passed, all items pass.
pub fn passes_by_numbers<P: Placement>()
    ensures root { (t : TreePlan P) → IsMade P.seen t → KeepsAtRoot P.seen t }
    ensures numbers { (t : TreePlan P) → IsMade P.seen t → HasExactEdges P.seen t
        → PassesByNumbers P.seen t }
    ensures filters { (t : TreePlan P) → IsMade P.seen t → HasAlikeEdges P.seen t
        → PassesByFilters P.seen t }
    ensures found { (t : TreePlan P) → IsMade P.seen t → HasAlikeEdges P.seen t
        → PassesFound P.seen t }
    ensures all { (t : TreePlan P) → IsMade P.seen t → length t.edges ≡ 0 → PassesAll P.seen t }
{}

/// A run of a tree's plan keeps just the items that pass backward: the region that is written last with a relation's rows is
/// that of its backward pipe, and has just their bits.
pub fn keeps_backward<P: Placement>()
    ensures { (t : TreePlan P) → IsMade P.seen t → KeepsBackward P.seen t }
{}
