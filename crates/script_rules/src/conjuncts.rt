// Where conditions begin, and which of them are equalities of columns.
ghost use Rattle.std.specs.Prelude.{◌≡◌, map};
ghost use Rattle.script_rules.specs.Conjuncts.{first_place, is_column_equality, is_equality, place_of};

use rpt_base::Comparison;
use sql_text::{Cond, Expr};

/// Whether a condition is an equality of two columns: a written equality, where it is a conjunct.
pub fn is_equality(cond: &Cond) -> bool
    ensures { result ≡ is_equality cond.now }
{
    match cond {
        Cond::Compare {
            at: _,
            op,
            left,
            right,
        } => is_column_equality(*op, left, right),
        _ => false,
    }
}

fn is_column_equality(op: Comparison, left: &Expr, right: &Expr) -> bool
    ensures { result ≡ is_column_equality op left.now right.now }
{
    matches!(
        (op, left, right),
        (Comparison::Eq, Expr::Column(_), Expr::Column(_))
    )
}

// The offset of a condition's first token that is no parenthesis.
#[cycle(place_of)]
pub(crate) fn place_of(cond: &Cond) -> u32
    ensures { result ≡ place_of cond.now }
{
    match cond {
        Cond::And(members) => first_place(members.as_slice()),
        Cond::Or(members) => first_place(members.as_slice()),
        Cond::Not { at, inner: _ } => *at,
        Cond::Compare {
            at,
            op: _,
            left: _,
            right: _,
        } => *at,
        Cond::Between {
            at,
            negated: _,
            operand: _,
            low: _,
            high: _,
        } => *at,
        Cond::InList {
            at,
            negated: _,
            operand: _,
            values: _,
        } => *at,
        Cond::Like {
            at,
            negated: _,
            operand: _,
            pattern: _,
        } => *at,
    }
}

// That of the first condition.
#[cycle(place_of)]
fn first_place(conds: &[Cond]) -> u32
    ensures { result ≡ first_place (map place_of conds.now) }
{
    match conds {
        [first, ..] => place_of(first),
        [] => 0,
    }
}
