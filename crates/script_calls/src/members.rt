// Conditions that no script has.
use case_text::{CaseError, put};
use column_table::Table;
use predicate::{Pred, holds, is_typed};
use rpt_base::{ColumnType, Value};
use sqlite_items::Items;
use std::alloc::Global;

/// Puts what AND and OR without members say of a row.
pub fn put_no_members(alloc: Global, given: &mut String) -> Result<(), CaseError> {
    match one_row(alloc) {
        Ok(table) => put_both(alloc, &table, given),
        Err(error) => Err(error),
    }
}

fn one_row(alloc: Global) -> Result<Table, CaseError> {
    let mut table = Table::new(alloc, &[ColumnType::Int])?;
    match table.push_row(&[Value::Int(0)]) {
        Ok(()) => Ok(table),
        Err(_) => Err(CaseError::Memory),
    }
}

fn put_both(alloc: Global, table: &Table, given: &mut String) -> Result<(), CaseError> {
    put_said("and", Pred::And(none(alloc)), table, given)?;
    put_said("or", Pred::Or(none(alloc)), table, given)
}

fn none(alloc: Global) -> Items<Pred> {
    Items::from_vec(Vec::new(alloc))
}

// Puts what a condition says of the first row. The condition is dropped in one: held where a function branches, it makes the proof
// much larger.
fn put_said(word: &str, pred: Pred, table: &Table, given: &mut String) -> Result<(), CaseError> {
    let done = put_held(word, &pred, table, given);
    drop(pred);
    done
}

fn put_held(word: &str, pred: &Pred, table: &Table, given: &mut String) -> Result<(), CaseError> {
    if !is_typed(pred, table) || table.rows() == 0 {
        return Err(CaseError::Range);
    }
    put(given, format_args!("{word} {}\n", holds(pred, table, 0)));
    Ok(())
}
