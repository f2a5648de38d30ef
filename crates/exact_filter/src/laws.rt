// What holds of exact places.
ghost use Rattle.std.specs.Prelude.{◌≢◌, ℕ};
ghost use Rattle.exact_filter.specs.Exact.{AreApart};

/// Two different numbers have their bits in different words, or have different bits.
pub fn tells_numbers_apart()
    ensures { (n m words : ℕ) → n ≢ m → AreApart n m words }
{}
