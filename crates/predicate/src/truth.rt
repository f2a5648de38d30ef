// When a condition is true of a row.
ghost use Rattle.std.specs.Prelude.{◌≡◌, ◌<◌, [], IsTrue, length, slice_index_or};
ghost use Rattle.std.specs.List.{list_all, list_any};
ghost use Rattle.column_table.specs.Table.{IsUtf8Cell, value_of};
ghost use Rattle.predicate.specs.Truth.{HasColumn, is_text_like, is_true, is_typed, says, value_in};
ghost use Rattle.rpt_base.specs.Values.{order_of};

use crate::like::is_like;
use crate::tree::{Operand, Pred};
use column_table::Table;
use rpt_base::{Cell, Comparison, Str, Value};
use std::cmp::Ordering;
use std::str;

/// Whether a condition is true of a row, numbered from 0.
#[cycle(holds)]
pub fn holds(pred: &Pred, table: &Table, row: u32) -> bool
    requires typed { IsTrue (is_typed table.now.kinds pred.now) }
    requires row { row < length table.now.rows }
    ensures { result ≡ is_true pred.now (slice_index_or table.now.rows row []) }
{
    match pred {
        Pred::And(all) => all_hold(all.as_slice(), table, row),
        Pred::Or(some) => some_hold(some.as_slice(), table, row),
        Pred::Not(inner) => !holds(inner.get(), table, row),
        Pred::Compare { op, left, right } => {
            let left = cell_in(left, table, row);
            let right = cell_in(right, table, row);
            says(*op, order_of(left, right))
        }
        Pred::Like { left, pattern } => is_text_like(pattern, cell_in(left, table, row)),
    }
}

// Whether all of the conditions are true of a row.
#[cycle(holds)]
fn all_hold(preds: &[Pred], table: &Table, row: u32) -> bool
    requires typed { IsTrue (list_all (is_typed table.now.kinds) preds.now) }
    requires row { row < length table.now.rows }
    ensures { result ≡ list_all (λ p. is_true p (slice_index_or table.now.rows row [])) preds.now }
{
    for pred in preds {
        if !holds(pred, table, row) {
            return false;
        }
    }
    true
}

// Whether one of the conditions is true of a row.
#[cycle(holds)]
fn some_hold(preds: &[Pred], table: &Table, row: u32) -> bool
    requires typed { IsTrue (list_all (is_typed table.now.kinds) preds.now) }
    requires row { row < length table.now.rows }
    ensures { result ≡ list_any (λ p. is_true p (slice_index_or table.now.rows row [])) preds.now }
{
    for pred in preds {
        if holds(pred, table, row) {
            return true;
        }
    }
    false
}

// The value of an operand in a row. A text is the operand's or the table's own.
fn cell_in<'a>(operand: &'a Operand, table: &'a Table, row: u32) -> Cell<'a>
    requires column { HasColumn table.now.kinds operand.now }
    requires row { row < length table.now.rows }
    ensures value { value_of result ≡ value_in (slice_index_or table.now.rows row []) operand.now }
    ensures utf8 { IsUtf8Cell result }
{
    match operand {
        Operand::Column(column) => table.cell(row, *column),
        Operand::Literal(value) => cell_of(value),
    }
}

// A value as a cell.
fn cell_of(value: &Value) -> Cell<'_>
    ensures value { value_of result ≡ value.now }
    ensures utf8 { IsUtf8Cell result }
{
    match value {
        Value::Int(number) => Cell::Int(*number),
        Value::Text(text) => Cell::Text(text.bytes()),
    }
}

// How two cells stand.
fn order_of(left: Cell<'_>, right: Cell<'_>) -> Ordering
    ensures { result ≡ order_of (value_of left.entry) (value_of right.entry) }
{
    left.cmp(&right)
}

// What a comparison says of two values that stand so.
fn says(op: Comparison, order: Ordering) -> bool
    ensures { result ≡ says op order }
{
    match op {
        Comparison::Eq => order.is_eq(),
        Comparison::Ne => order.is_ne(),
        Comparison::Lt => order.is_lt(),
        Comparison::Le => order.is_le(),
        Comparison::Gt => order.is_gt(),
        Comparison::Ge => order.is_ge(),
    }
}

// Whether a text is as a pattern says.
fn is_text_like(pattern: &Str, cell: Cell<'_>) -> bool
    requires { IsUtf8Cell cell }
    ensures { result ≡ is_text_like pattern.now (value_of cell.entry) }
{
    match cell {
        Cell::Int(_) => false,
        // A text of a cell is UTF-8, so no call need look at its bytes once more.
        Cell::Text(text) => is_like(pattern.as_str(), unsafe { str::from_utf8_unchecked(text) }),
    }
}
