// The relations of the columns that a condition names.
ghost use Rattle.std.specs.Prelude.{◌≡◌, [], ◌∷◌};
ghost use Rattle.std.specs.List.{flat_map};
ghost use Rattle.script_rules.specs.Conjuncts.{are_of, column_of, columns_in, columns_of_operands, first_relation, of_two_relations};

use crate::operands::column_of;
use crate::scope::Scope;
use sql_text::{Cond, Expr};

// Whether a condition names columns of two relations or more.
pub(crate) fn is_of_two_relations(scope: &Scope, cond: &Cond) -> bool
    ensures { result ≡ of_two_relations (columns_in scope.now cond.now) }
{
    match first_relation(scope, cond) {
        Some(relation) => !are_of(scope, cond, relation),
        None => false,
    }
}

/// The relation of the first column that a condition names, from 0 in the order of FROM; none where it names none that
/// resolves.
#[cycle(first_relation)]
pub fn first_relation(scope: &Scope, cond: &Cond) -> Option<u32>
    ensures { result ≡ first_relation (columns_in scope.now cond.now) }
{
    match cond {
        Cond::And(members) => first_of_all(scope, members.as_slice()),
        Cond::Or(members) => first_of_all(scope, members.as_slice()),
        Cond::Not { at: _, inner } => first_relation(scope, inner.get()),
        Cond::Compare {
            at: _,
            op: _,
            left,
            right,
        } => first_of_two(scope, left, right),
        Cond::Between {
            at: _,
            negated: _,
            operand,
            low,
            high,
        } => first_of_three(scope, operand, low, high),
        Cond::InList {
            at: _,
            negated: _,
            operand,
            values: _,
        } => first_of_one(scope, operand),
        Cond::Like {
            at: _,
            negated: _,
            operand,
            pattern: _,
        } => first_of_one(scope, operand),
    }
}

#[cycle(first_relation)]
fn first_of_all(scope: &Scope, conds: &[Cond]) -> Option<u32>
    ensures { result ≡ first_relation (flat_map (columns_in scope.now) conds.now) }
{
    for cond in conds {
        if let Some(relation) = first_relation(scope, cond) {
            return Some(relation);
        }
    }
    None
}

fn first_of_one(scope: &Scope, operand: &Expr) -> Option<u32>
    ensures { result ≡ first_relation (columns_of_operands scope.now (operand.now ∷ [])) }
{
    match column_of(scope, operand) {
        Some(column) => Some(column.relation),
        None => None,
    }
}

fn first_of_two(scope: &Scope, left: &Expr, right: &Expr) -> Option<u32>
    ensures { result ≡ first_relation (columns_of_operands scope.now (left.now ∷ right.now ∷ [])) }
{
    match column_of(scope, left) {
        Some(column) => Some(column.relation),
        None => first_of_one(scope, right),
    }
}

fn first_of_three(scope: &Scope, operand: &Expr, low: &Expr, high: &Expr) -> Option<u32>
    ensures { result ≡ first_relation (columns_of_operands scope.now
        (operand.now ∷ low.now ∷ high.now ∷ [])) }
{
    match column_of(scope, operand) {
        Some(column) => Some(column.relation),
        None => first_of_two(scope, low, high),
    }
}

// Whether all columns that a condition names are of this relation.
#[cycle(are_of)]
fn are_of(scope: &Scope, cond: &Cond, relation: u32) -> bool
    ensures { result ≡ are_of relation (columns_in scope.now cond.now) }
{
    match cond {
        Cond::And(members) => all_are_of(scope, members.as_slice(), relation),
        Cond::Or(members) => all_are_of(scope, members.as_slice(), relation),
        Cond::Not { at: _, inner } => are_of(scope, inner.get(), relation),
        Cond::Compare {
            at: _,
            op: _,
            left,
            right,
        } => two_are_of(scope, left, right, relation),
        Cond::Between {
            at: _,
            negated: _,
            operand,
            low,
            high,
        } => three_are_of(scope, operand, low, high, relation),
        Cond::InList {
            at: _,
            negated: _,
            operand,
            values: _,
        } => one_is_of(scope, operand, relation),
        Cond::Like {
            at: _,
            negated: _,
            operand,
            pattern: _,
        } => one_is_of(scope, operand, relation),
    }
}

#[cycle(are_of)]
fn all_are_of(scope: &Scope, conds: &[Cond], relation: u32) -> bool
    ensures { result ≡ are_of relation (flat_map (columns_in scope.now) conds.now) }
{
    for cond in conds {
        if !are_of(scope, cond, relation) {
            return false;
        }
    }
    true
}

fn one_is_of(scope: &Scope, operand: &Expr, relation: u32) -> bool
    ensures { result ≡ are_of relation (columns_of_operands scope.now (operand.now ∷ [])) }
{
    match column_of(scope, operand) {
        Some(column) => column.relation == relation,
        None => true,
    }
}

fn two_are_of(scope: &Scope, left: &Expr, right: &Expr, relation: u32) -> bool
    ensures { result ≡ are_of relation (columns_of_operands scope.now (left.now ∷ right.now ∷ [])) }
{
    one_is_of(scope, left, relation) && one_is_of(scope, right, relation)
}

fn three_are_of(scope: &Scope, operand: &Expr, low: &Expr, high: &Expr, relation: u32) -> bool
    ensures { result ≡ are_of relation (columns_of_operands scope.now
        (operand.now ∷ low.now ∷ high.now ∷ [])) }
{
    one_is_of(scope, operand, relation) && two_are_of(scope, low, high, relation)
}
