// Tables that are made row by row.
ghost use Rattle.std.specs.Prelude.{◌≡◌, ◌+◌, ◌<◌, ◌≤◌, ◌∷◌, [], OnOk, length};
ghost use Rattle.rpt_base.specs.declared.limits.TheConstants.{MAX_ROWS};
ghost use Rattle.rpt_base.specs.declared.values.ColumnType.TheVariants as kind;

use case_tables::{int_of, put_rows, quoted};
use case_text::{CaseError, Entry, put};
use column_table::{Table, TableBuilder};
use rpt_base::{ColumnType, Str, Value};
use std::alloc::Global;

// A number, and a text in quotes.
fn parts_of(entry: &Entry) -> Result<(i64, &str), CaseError> {
    let Some((number, text)) = entry.rest.as_str().split_once(' ') else {
        return Err(CaseError::Word);
    };
    let number = int_of(number)?;
    match quoted(text) {
        Some(text) => Ok((number, text)),
        None => Err(CaseError::Word),
    }
}

/// Puts a table of a number and a text, once a row of each line is pushed.
pub fn put_pushed(alloc: Global, entries: &[Entry], given: &mut String) -> Result<(), CaseError> {
    let mut table = Table::new(alloc, &[ColumnType::Int, ColumnType::Text])?;
    push_rows(alloc, &mut table, entries)?;
    put_kinds(&table, given);
    put_rows(&table, given);
    Ok(())
}

fn push_rows(alloc: Global, table: &mut Table, entries: &[Entry]) -> Result<(), CaseError>
    requires kinds { table.old.kinds ≡ kind.Int ∷ kind.Text ∷ [] }
    requires none { table.old.rows ≡ [] }
{
    let [first, second] = entries else {
        return Err(CaseError::Word);
    };
    push_entry(alloc, table, first)?;
    push_entry(alloc, table, second)
}

fn push_entry(alloc: Global, table: &mut Table, entry: &Entry) -> Result<(), CaseError>
    requires kinds { table.old.kinds ≡ kind.Int ∷ kind.Text ∷ [] }
    requires few { length table.old.rows ≤ 1 }
    ensures kinds { OnOk result (table.new.kinds ≡ table.old.kinds) }
    ensures rows { OnOk result (length table.new.rows ≡ length table.old.rows + 1) }
{
    let (number, text) = parts_of(entry)?;
    let text = Str::from_text(alloc, text)?;
    table.push_row(&[Value::Int(number), Value::Text(text)])?;
    Ok(())
}

fn put_kinds(table: &Table, given: &mut String) {
    for column in 0..table.columns() {
        put(given, format_args!("{:?} ", table.kind(column)));
    }
    put(given, format_args!("{}\n", table.rows()));
}

/// Puts a table of a text and a number: a row is filled value by value, one more only begins, and once the table is finished
/// a third one is pushed.
pub fn put_built(alloc: Global, entries: &[Entry], given: &mut String) -> Result<(), CaseError> {
    let [filled, begun, pushed] = entries else {
        return Err(CaseError::Word);
    };
    let mut builder = TableBuilder::new(alloc, &[ColumnType::Text, ColumnType::Int])?;
    fill_row(&mut builder, filled)?;
    builder.put_text(begun.rest.as_str())?;
    let mut table = builder.finish();
    put_kinds(&table, given);
    push_turned(alloc, &mut table, pushed)?;
    put_rows(&table, given);
    Ok(())
}

// Fills the first row.
fn fill_row(builder: &mut TableBuilder, entry: &Entry) -> Result<(), CaseError>
    requires { builder.old ≡ record { kinds = kind.Text ∷ kind.Int ∷ []; rows = []; started = [] } }
    ensures kinds { OnOk result (builder.new.kinds ≡ kind.Text ∷ kind.Int ∷ []) }
    ensures rows { OnOk result (length builder.new.rows ≡ 1) }
    ensures started { OnOk result (builder.new.started ≡ []) }
{
    let (number, text) = parts_of(entry)?;
    builder.put_text(text)?;
    builder.put_int(number)?;
    builder.end_row();
    Ok(())
}

// Pushes one more row, its text first.
fn push_turned(alloc: Global, table: &mut Table, entry: &Entry) -> Result<(), CaseError>
    requires kinds { table.old.kinds ≡ kind.Text ∷ kind.Int ∷ [] }
    requires room { length table.old.rows < MAX_ROWS }
{
    let (number, text) = parts_of(entry)?;
    let text = Str::from_text(alloc, text)?;
    table.push_row(&[Value::Text(text), Value::Int(number)])?;
    Ok(())
}
