// What is wrong with references and operands, and of which types they are.
ghost use Rattle.std.specs.Prelude.{◌≡◌, [], ◌∷◌};
ghost use Rattle.std.specs.List.{flat_map, list_all};
ghost use Rattle.std.specs.Option.{is_some};
ghost use Rattle.rpt_base.specs.Lists.{all_of};
ghost use Rattle.script_rules.specs.Conjuncts.{column_of};
ghost use Rattle.script_rules.specs.Violations.{differ, first_of, is_of_type, is_same_type, item_violations};
ghost use Rattle.script_rules.specs.Violations.{operand_violations, reference_violations, type_violations, type_of, value_types};
ghost use Rattle.column_table.specs.Table.{type_of_value};

use crate::found::{Violation, note, note_if};
use crate::kinds::BindKind;
use crate::scope::Scope;
use column_classes::ColumnRef;
use rpt_base::{ColumnType, Value};
use sql_text::{ColumnName, Expr, Item, Items};

// The first of what was found and the refusal of a reference.
#[tactic(auto, unfolding(crate::specs::Violations::first_of, crate::specs::Violations::reference_violations))]
pub(crate) fn in_reference(
    scope: &Scope,
    name: &ColumnName,
    found: Option<Violation>,
) -> Option<Violation>
    ensures { result ≡ first_of found (reference_violations scope.now name.now) }
{
    match scope.resolve(name) {
        Ok(_) => found,
        Err(kind) => note(found, Violation { at: name.at, kind }),
    }
}

// The first refusal of what is selected.
#[tactic(auto, unfolding(crate::specs::Violations::first_of, crate::specs::Violations::item_violations))]
pub(crate) fn in_items(scope: &Scope, items: &Items) -> Option<Violation>
    ensures { result ≡ first_of None (item_violations scope.now items.now) }
{
    match items {
        Items::Star => None,
        Items::List(items) => in_list(scope, items.as_slice()),
    }
}

fn in_list(scope: &Scope, items: &[Item]) -> Option<Violation>
    ensures { result ≡ first_of None (flat_map (λ i. reference_violations scope.now i.column)
        items.now) }
{
    let mut found = None;
    for item in items {
        found = in_reference(scope, &item.column, found);
    }
    found
}

// The first of what was found and the refusal of an operand.
#[tactic(auto, unfolding(crate::specs::Violations::first_of, crate::specs::Violations::operand_violations))]
pub(crate) fn in_operand(
    scope: &Scope,
    operand: &Expr,
    found: Option<Violation>,
) -> Option<Violation>
    ensures { result ≡ first_of found (operand_violations scope.now operand.now) }
{
    match operand {
        Expr::Column(name) => in_reference(scope, name, found),
        Expr::Literal { at: _, value: _ } => found,
    }
}

/// The column that an operand is; none where it is a literal, or a reference that doesn't resolve.
#[tactic(auto, unfolding(crate::specs::Conjuncts::column_of))]
pub fn column_of(scope: &Scope, operand: &Expr) -> Option<ColumnRef>
    ensures { result ≡ column_of scope.now operand.now }
{
    match operand {
        Expr::Column(name) => match scope.resolve(name) {
            Ok(column) => Some(column),
            Err(_) => None,
        },
        Expr::Literal { at: _, value: _ } => None,
    }
}

// The type of an operand.
#[tactic(auto, unfolding(crate::specs::Violations::type_of))]
pub(crate) fn type_of(scope: &Scope, operand: &Expr) -> Option<ColumnType>
    ensures { result ≡ type_of scope.now operand.now }
{
    match operand {
        Expr::Column(name) => match scope.resolve(name) {
            Ok(column) => scope.type_at(column),
            Err(_) => None,
        },
        Expr::Literal { at: _, value } => Some(type_of_value(value)),
    }
}

fn type_of_value(value: &Value) -> ColumnType
    ensures { result ≡ type_of_value value.now }
{
    match value {
        Value::Int(_) => ColumnType::Int,
        Value::Text(_) => ColumnType::Text,
    }
}

fn is_same_type(left: ColumnType, right: ColumnType) -> bool
    ensures { result ≡ is_same_type left right }
{
    matches!(
        (left, right),
        (ColumnType::Int, ColumnType::Int) | (ColumnType::Text, ColumnType::Text)
    )
}

// The first of what was found and the refusal of operands that are of more than one type.
#[tactic(auto, unfolding(crate::specs::Violations::type_violations))]
pub(crate) fn in_types(
    at: u32,
    types: &[Option<ColumnType>],
    found: Option<Violation>,
) -> Option<Violation>
    ensures { result ≡ first_of found (type_violations at types.now) }
{
    note_if(found, differ(types), at, BindKind::TypeMismatch)
}

// Whether all types are known, and are not one type.
fn differ(types: &[Option<ColumnType>]) -> bool
    ensures { result ≡ differ (all_of types.now) }
{
    match types {
        [first, others @ ..] => differ_from(*first, others),
        [] => false,
    }
}

// The same of a type and others.
fn differ_from(first: Option<ColumnType>, others: &[Option<ColumnType>]) -> bool
    ensures { result ≡ differ (all_of (first ∷ others.now)) }
{
    match first {
        Some(kind) => are_known(others) && !are_of_type(others, kind),
        None => false,
    }
}

fn are_known(types: &[Option<ColumnType>]) -> bool
    ensures { result ≡ list_all is_some types.now }
{
    types.iter().all(|other| other.is_some())
}

// Whether all types are known to be this one.
fn are_of_type(types: &[Option<ColumnType>], kind: ColumnType) -> bool
    ensures { result ≡ list_all (is_of_type kind) types.now }
{
    types.iter().all(|other| is_of_type(kind, *other))
}

fn is_of_type(kind: ColumnType, other: Option<ColumnType>) -> bool
    ensures { result ≡ is_of_type kind other }
{
    match other {
        Some(other) => is_same_type(kind, other),
        None => false,
    }
}

// The first of what was found and the refusal of an operand and values that are of more than one type.
#[tactic(auto, unfolding(crate::specs::Violations::type_violations))]
pub(crate) fn in_value_types(
    scope: &Scope,
    at: u32,
    operand: &Expr,
    values: &[Value],
    found: Option<Violation>,
) -> Option<Violation>
    ensures { result ≡ first_of found (type_violations at
        (type_of scope.now operand.now ∷ value_types values.now)) }
{
    let do_differ = match type_of(scope, operand) {
        Some(first) => has_other_type(values, first),
        None => false,
    };
    note_if(found, do_differ, at, BindKind::TypeMismatch)
}

// Whether a value is of another type.
fn has_other_type(values: &[Value], first: ColumnType) -> bool
    ensures { result ≡ differ (all_of (Some first ∷ value_types values.now)) }
{
    !are_all(values, first)
}

// Whether all values are of this type.
fn are_all(values: &[Value], kind: ColumnType) -> bool
    ensures { result ≡ list_all (λ v. is_same_type kind (type_of_value v)) values.now }
{
    values
        .iter()
        .all(|value| is_same_type(kind, type_of_value(value)))
}
