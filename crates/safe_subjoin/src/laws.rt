// What the definitions of safe prefixes say of themselves.
ghost use Rattle.std.specs.Prelude.{◌≡◌, ℕ, ◌≤◌, ◌⊎◌, List, Option, length};
ghost use Rattle.join_graph.specs.declared.tree.Tree.{Tree};
ghost use Rattle.join_graph.specs.JoinList.{AreRising};
ghost use Rattle.join_graph.specs.SafeSet.{IsSafe};
ghost use Rattle.safe_subjoin.specs.SafeOrder.{AreListsOfPrefixes, IsFirstUnsafe, first_of};
ghost use Rattle.rpt_base.specs.Orders.{IsOrder};

/// The theorem on what `safe_lists` gives, for all relations and orders; the call does nothing. There is such a list for the
/// prefixes of each order, and there is only one.
pub fn has_safe_lists()
    ensures there { (vs : List (List ℕ)) (order : List ℕ) → AreRising vs → IsOrder (length vs) order
        → (lists : List (Option Tree)) × AreListsOfPrefixes vs order lists }
    ensures one { (vs : List (List ℕ)) (order : List ℕ) (a b : List (Option Tree)) → AreListsOfPrefixes vs order a
        → AreListsOfPrefixes vs order b → a ≡ b }
{}

/// The theorem on the first unsafe prefix, for all relations and orders; the call does nothing. All prefixes of an order are
/// safe or there is a first that is not, and there is only one.
pub fn has_first_unsafe()
    ensures there { (vs : List (List ℕ)) (order : List ℕ) → AreRising vs → IsOrder (length vs) order
        → ((k : ℕ) → 1 ≤ k → k ≤ length vs → IsSafe vs (first_of order k)) ⊎ ((k : ℕ) × IsFirstUnsafe vs order k) }
    ensures one { (vs : List (List ℕ)) (order : List ℕ) (a b : ℕ) → IsFirstUnsafe vs order a
        → IsFirstUnsafe vs order b → a ≡ b }
{}
