// The written equalities of columns.
ghost use Rattle.std.specs.Prelude.{◌≡◌, [], ◌∷◌, ◌++◌, IfOk, OnOk, map};
ghost use Rattle.std.specs.List.{flat_map};
ghost use Rattle.std.specs.Option.{option_to_list};
ghost use Rattle.script_rules.specs.Conjuncts.{columns_of_operands};
ghost use Rattle.binder.specs.Binding.{equality_between, equality_of};

use column_classes::Equality;
use rpt_base::Memory;
use script_rules::{Scope, column_of, is_equality};
use sql_text::{Cond, Expr};
use std::alloc::Global;

/// The equalities that conjuncts write, in order.
pub(crate) fn equalities(
    alloc: Global,
    scope: &Scope,
    conjuncts: &[&Cond],
) -> Result<Vec<Equality>, Memory>
    ensures { IfOk result (λ all. all.items
        ≡ flat_map (equality_of scope.now) (map (λ c. c.now) conjuncts.now)) }
{
    let mut found = Vec::new(alloc);
    for conjunct in conjuncts {
        add_conjunct(scope, conjunct, &mut found)?;
    }
    Ok(found)
}

// Puts the equality that a conjunct writes behind what was found, if it is one.
fn add_conjunct(scope: &Scope, cond: &Cond, found: &mut Vec<Equality>) -> Result<(), Memory>
    ensures { OnOk result (found.new.items ≡ found.old.items ++ equality_of scope.now cond.now) }
{
    match equality_of(scope, cond) {
        Some(equality) => Ok(found.push(equality)?),
        None => Ok(()),
    }
}

// The equality that a conjunct writes, if it is one.
fn equality_of(scope: &Scope, cond: &Cond) -> Option<Equality>
    ensures { option_to_list result ≡ equality_of scope.now cond.now }
{
    if !is_equality(cond) {
        return None;
    }
    match cond {
        Cond::Compare {
            at: _,
            op: _,
            left,
            right,
        } => equality_between(scope, left, right),
        _ => None,
    }
}

// The equality of two operands, if both are columns.
fn equality_between(scope: &Scope, left: &Expr, right: &Expr) -> Option<Equality>
    ensures { option_to_list result ≡ equality_between
        (columns_of_operands scope.now (left.now ∷ right.now ∷ [])) }
{
    match (column_of(scope, left), column_of(scope, right)) {
        (Some(left), Some(right)) => Some(Equality { left, right }),
        _ => None,
    }
}
