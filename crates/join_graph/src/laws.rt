// What the definition of the greatest weight says of itself.
ghost use Rattle.std.specs.Prelude.{◌≡◌, ◌≤◌, ℕ};
ghost use Rattle.join_graph.specs.Weights.{IsBest};

/// The theorem on the greatest weight of a list with parents, for all weights; the call does nothing. Where there are
/// relations there is such a weight, and there is only one.
pub fn has_best()
    ensures there { (n : ℕ) (weight : ℕ → ℕ → ℕ) → 1 ≤ n → (best : ℕ) × IsBest n weight best }
    ensures one { (n : ℕ) (weight : ℕ → ℕ → ℕ) (a b : ℕ) → IsBest n weight a → IsBest n weight b
        → a ≡ b }
{}
