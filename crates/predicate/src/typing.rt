// Whether a condition fits a table.
ghost use Rattle.std.specs.Prelude.{◌≡◌};
ghost use Rattle.std.specs.List.{list_all};
ghost use Rattle.predicate.specs.Truth.{are_one_type, is_typed, operand_type};

use crate::tree::{Operand, Pred};
use column_table::Table;
use rpt_base::{ColumnType, Value};

/// Whether a condition fits a table: each column that it names is one of the table's, the two sides of each comparison are of
/// one type, and what is tested by LIKE is a text.
#[cycle(is_typed)]
pub fn is_typed(pred: &Pred, table: &Table) -> bool
    ensures { result ≡ is_typed table.now.kinds pred.now }
{
    match pred {
        Pred::And(all) => are_typed(all.as_slice(), table),
        Pred::Or(some) => are_typed(some.as_slice(), table),
        Pred::Not(inner) => is_typed(inner.get(), table),
        Pred::Compare { op: _, left, right } => {
            are_one_type(operand_type(left, table), operand_type(right, table))
        }
        Pred::Like { left, pattern: _ } => {
            let text = Some(ColumnType::Text);
            are_one_type(operand_type(left, table), text)
        }
    }
}

// Whether all of the conditions fit a table.
#[cycle(is_typed)]
fn are_typed(preds: &[Pred], table: &Table) -> bool
    ensures { result ≡ list_all (is_typed table.now.kinds) preds.now }
{
    for pred in preds {
        if !is_typed(pred, table) {
            return false;
        }
    }
    true
}

// The type of an operand, if its column is one of the table's.
fn operand_type(operand: &Operand, table: &Table) -> Option<ColumnType>
    ensures { result ≡ operand_type table.now.kinds operand.now }
{
    match operand {
        Operand::Column(column) if *column < table.columns() => Some(table.kind(*column)),
        Operand::Column(_) => None,
        Operand::Literal(Value::Int(_)) => Some(ColumnType::Int),
        Operand::Literal(Value::Text(_)) => Some(ColumnType::Text),
    }
}

// Whether both are there, and the same.
fn are_one_type(left: Option<ColumnType>, right: Option<ColumnType>) -> bool
    ensures { result ≡ are_one_type left right }
{
    match (left, right) {
        (Some(ColumnType::Int), Some(ColumnType::Int)) => true,
        (Some(ColumnType::Text), Some(ColumnType::Text)) => true,
        _ => false,
    }
}
