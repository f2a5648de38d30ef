// What the definitions of the trees say of themselves.
ghost use Rattle.std.specs.Prelude.{◌≡◌, ℕ, ◌≤◌, ◌⊎◌, List, length};
ghost use Rattle.rpt_base.specs.declared.sets.RelSet.{RelSet};
ghost use Rattle.join_graph.specs.declared.tree.Tree.{Tree};
ghost use Rattle.join_graph.specs.JoinList.{AreRising, IsAcyclic};
ghost use Rattle.largest_root.specs.Greedy.{IsChain, IsCyclic, IsGrown, IsLargestRoot};

/// The theorem on the tree that `grow` gives, for all relations, sizes and chains; the call does nothing. There is such a
/// tree for each chain, and there is only one.
pub fn has_grown_tree()
    ensures there { (vs : List (List ℕ)) (sizes : List ℕ) (chain : List RelSet) → 1 ≤ length vs → IsChain (length vs) chain
        → (t : Tree) × IsGrown vs sizes chain t }
    ensures one { (vs : List (List ℕ)) (sizes : List ℕ) (chain : List RelSet) (s t : Tree) → IsGrown vs sizes chain s
        → IsGrown vs sizes chain t → s ≡ t }
{}

/// The theorem on what `join_tree` gives, for all relations and sizes; the call does nothing. Relations with a join list have
/// such a tree, and only one. Those with none have the two numbers of a refusal, and only these.
pub fn has_tree()
    ensures there { (vs : List (List ℕ)) (sizes : List ℕ) → AreRising vs → IsAcyclic vs → (t : Tree)
        × IsLargestRoot vs sizes t }
    ensures one { (vs : List (List ℕ)) (sizes : List ℕ) (s t : Tree) → IsLargestRoot vs sizes s
        → IsLargestRoot vs sizes t → s ≡ t }
    ensures refused { (vs : List (List ℕ)) → 1 ≤ length vs → AreRising vs
        → IsAcyclic vs ⊎ ((best : ℕ) × (needed : ℕ) × IsCyclic vs best needed) }
    ensures one_refusal { (vs : List (List ℕ)) (a m b n : ℕ) → IsCyclic vs a m → IsCyclic vs b n
        → (a ≡ b) × (m ≡ n) }
{}
