// What the definition of a query's variables says of itself.
ghost use Rattle.std.specs.Prelude.{◌≡◌, ℕ, List};
ghost use Rattle.column_classes.specs.Variables.{AreEqualities, AreQueryVariables};
ghost use Rattle.column_classes.specs.Variables.{AreWidths, QueryVariables};
ghost use Rattle.column_classes.specs.declared.columns.Equality.{Equality};

/// The theorem on variables, for all queries; the call does nothing. A query has a list of variables with its lists of pairs
/// and sets, and it has only one.
pub fn has_variables()
    ensures there { (widths : List ℕ) (equalities : List Equality)
        → AreWidths widths → AreEqualities widths equalities
        → (known : QueryVariables) × AreQueryVariables widths equalities known }
    ensures one { (widths : List ℕ) (equalities : List Equality) (a b : QueryVariables)
        → AreQueryVariables widths equalities a → AreQueryVariables widths equalities b → a ≡ b }
{}
