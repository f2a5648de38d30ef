// What is wrong with conditions.
ghost use Rattle.std.specs.Prelude.{◌≡◌, []};
ghost use Rattle.std.specs.List.{flat_map};
ghost use Rattle.std.specs.Option.{option_to_list};
ghost use Rattle.script_rules.specs.Conjuncts.{conditions_of, parts_of};
ghost use Rattle.script_rules.specs.Violations.{between_violations, compare_violations, cond_violations};
ghost use Rattle.script_rules.specs.Violations.{conjunct_violations, violations_in};
ghost use Rattle.script_rules.specs.Violations.{first_of, join_violations, like_violations, list_violations};

use crate::conjuncts::{is_equality, place_of};
use crate::found::{Violation, merge, note_if};
use crate::kinds::BindKind;
use crate::named::is_of_two_relations;
use crate::operands::{in_operand, in_types, in_value_types, type_of};
use crate::scope::Scope;
use rpt_base::{ColumnType, Value};
use sql_text::{Cond, Expr, Script};

// The first refusal of the conjuncts.
pub(crate) fn in_conditions(scope: &Scope, script: &Script) -> Option<Violation>
    ensures { result ≡ first_of None (violations_in scope.now (conditions_of script.now)) }
{
    let mut found = None;
    for source in script.select.sources.as_slice() {
        found = in_some(scope, &source.on, found);
    }
    in_some(scope, &script.select.filter, found)
}

// The first of what was found and the refusals of the conjuncts of a condition that may be missing.
fn in_some(scope: &Scope, cond: &Option<Cond>, found: Option<Violation>) -> Option<Violation>
    ensures { result ≡ first_of found (violations_in scope.now (option_to_list cond.now)) }
{
    match cond {
        Some(cond) => in_parts(scope, cond, found),
        None => found,
    }
}

// The same of a condition.
#[cycle(in_parts)]
fn in_parts(scope: &Scope, cond: &Cond, found: Option<Violation>) -> Option<Violation>
    ensures { result ≡ first_of found (flat_map (conjunct_violations scope.now)
        (parts_of cond.now)) }
{
    match cond {
        Cond::And(members) => in_all_parts(scope, members.as_slice(), found),
        _ => in_conjunct(scope, cond, found),
    }
}

#[cycle(in_parts)]
fn in_all_parts(scope: &Scope, conds: &[Cond], found: Option<Violation>) -> Option<Violation>
    ensures { result ≡ first_of found (violations_in scope.now conds.now) }
{
    let mut found = found;
    for cond in conds {
        found = in_parts(scope, cond, found);
    }
    found
}

// The first of what was found and the refusals of a conjunct.
fn in_conjunct(scope: &Scope, cond: &Cond, found: Option<Violation>) -> Option<Violation>
    ensures { result ≡ first_of found (conjunct_violations scope.now cond.now) }
{
    match in_cond(scope, cond, None) {
        Some(violation) => merge(found, Some(violation)),
        None => in_join(scope, cond, found),
    }
}

// The first of what was found and the refusal of a conjunct that is otherwise in order.
#[tactic(auto, unfolding(crate::specs::Violations::join_violations))]
fn in_join(scope: &Scope, cond: &Cond, found: Option<Violation>) -> Option<Violation>
    ensures { result ≡ first_of found (join_violations scope.now cond.now []) }
{
    let is_refused = is_of_two_relations(scope, cond) && !is_equality(cond);
    note_if(found, is_refused, place_of(cond), BindKind::NotEquiJoin)
}

// The first of what was found and the refusals inside of a condition.
#[cycle(in_cond)]
fn in_cond(scope: &Scope, cond: &Cond, found: Option<Violation>) -> Option<Violation>
    ensures { result ≡ first_of found (cond_violations scope.now cond.now) }
{
    match cond {
        Cond::And(members) => in_conds(scope, members.as_slice(), found),
        Cond::Or(members) => in_conds(scope, members.as_slice(), found),
        Cond::Not { at: _, inner } => in_cond(scope, inner.get(), found),
        Cond::Compare {
            at,
            op: _,
            left,
            right,
        } => in_compare(scope, *at, left, right, found),
        Cond::Between {
            at,
            negated: _,
            operand,
            low,
            high,
        } => in_between(scope, *at, operand, low, high, found),
        Cond::InList {
            at,
            negated: _,
            operand,
            values,
        } => in_list(scope, *at, operand, values.as_slice(), found),
        Cond::Like {
            at,
            negated: _,
            operand,
            pattern: _,
        } => in_like(scope, *at, operand, found),
    }
}

#[cycle(in_cond)]
fn in_conds(scope: &Scope, conds: &[Cond], found: Option<Violation>) -> Option<Violation>
    ensures { result ≡ first_of found (flat_map (cond_violations scope.now) conds.now) }
{
    let mut found = found;
    for cond in conds {
        found = in_cond(scope, cond, found);
    }
    found
}

fn in_compare(
    scope: &Scope,
    at: u32,
    left: &Expr,
    right: &Expr,
    found: Option<Violation>,
) -> Option<Violation>
    ensures { result ≡ first_of found (compare_violations scope.now at left.now right.now) }
{
    let found = in_operand(scope, left, found);
    let found = in_operand(scope, right, found);
    in_types(at, &[type_of(scope, left), type_of(scope, right)], found)
}

fn in_between(
    scope: &Scope,
    at: u32,
    operand: &Expr,
    low: &Expr,
    high: &Expr,
    found: Option<Violation>,
) -> Option<Violation>
    ensures { result ≡ first_of found (between_violations scope.now at operand.now low.now high.now) }
{
    let found = in_operand(scope, operand, found);
    let found = in_operand(scope, low, found);
    let found = in_operand(scope, high, found);
    let types = [
        type_of(scope, operand),
        type_of(scope, low),
        type_of(scope, high),
    ];
    in_types(at, &types, found)
}

fn in_list(
    scope: &Scope,
    at: u32,
    operand: &Expr,
    values: &[Value],
    found: Option<Violation>,
) -> Option<Violation>
    ensures { result ≡ first_of found (list_violations scope.now at operand.now values.now) }
{
    let found = in_operand(scope, operand, found);
    in_value_types(scope, at, operand, values, found)
}

fn in_like(scope: &Scope, at: u32, operand: &Expr, found: Option<Violation>) -> Option<Violation>
    ensures { result ≡ first_of found (like_violations scope.now at operand.now) }
{
    let found = in_operand(scope, operand, found);
    in_types(
        at,
        &[type_of(scope, operand), Some(ColumnType::Text)],
        found,
    )
}
