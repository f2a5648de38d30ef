// What the definition of plans says of itself.
ghost use Rattle.std.specs.Prelude.{◌≡◌, ℕ, IfSome, List, Option, length};
ghost use Rattle.join_graph.specs.JoinList.{AreRising, IsAcyclic};
ghost use Rattle.rpt_base.specs.Orders.{IsOrder};
ghost use Rattle.rpt_engine.specs.declared.planning.Plan.{Plan};
ghost use Rattle.rpt_engine.specs.Planned.{IsPlan};

use largest_root::has_tree;
use safe_subjoin::has_safe_lists;

/// The theorem on plans, for all relations with a join list, sizes and orders; the call does nothing. There is a plan for the order
/// that is given or for none, and there is only one.
pub fn has_plan()
    ensures there { (vs : List (List ℕ)) (sizes : List ℕ) (order : Option (List ℕ)) → AreRising vs → IsAcyclic vs
        → IfSome order (IsOrder (length vs)) → (plan : Plan) × IsPlan vs sizes order plan }
    ensures one { (vs : List (List ℕ)) (sizes : List ℕ) (order : Option (List ℕ)) (a b : Plan) → IsPlan vs sizes order a
        → IsPlan vs sizes order b → a ≡ b }
{
    // Their clauses say that there are a tree and lists.
    has_tree();
    has_safe_lists();
}
