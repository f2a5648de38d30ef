// Keys of rows, and rows that are looked up by key.
ghost use Rattle.std.specs.Prelude.{IsTrue};
ghost use Rattle.std.specs.List.Sorted.{IsStrictlyIncreasing};
ghost use Rattle.key_codes.specs.Keys.{AreInRange};

use case_tables::{cell_of, loaded, put_cell, values_of};
use case_text::{Case, CaseError, Entry, number_of, numbers_of, put};
use column_table::Table;
use hash_join::Build;
use key_codes::KeyRows;
use std::alloc::Global;
use std::thread::Threads;

/// Puts the types and the keys of rows of a table, and then the rows that each key finds that is asked for. The first line
/// has the rows, the second the columns of their keys, and the third the parts.
pub fn put_build<R: Threads + Sync>(
    rt: &R,
    alloc: Global,
    case: &Case,
    given: &mut String,
) -> Result<(), CaseError> {
    let [of, by, parts, finds @ ..] = case.entries.as_slice() else {
        return Err(CaseError::Word);
    };
    let Ok(table) = loaded(alloc, case.head.as_str(), &case.text)? else {
        return Err(CaseError::Range);
    };
    let lines = Lines {
        of,
        by,
        parts,
        finds,
    };
    put_keys_and_finds(rt, alloc, &table, &lines, given)
}

// The lines that say more of a build.
#[derive(Clone, Copy)]
struct Lines<'a> {
    of: &'a Entry,
    by: &'a Entry,
    parts: &'a Entry,
    finds: &'a [Entry],
}

fn put_keys_and_finds<R: Threads + Sync>(
    rt: &R,
    alloc: Global,
    table: &Table,
    lines: &Lines<'_>,
    given: &mut String,
) -> Result<(), CaseError> {
    let rows = numbers_of(alloc, lines.of.rest.as_str())?;
    let columns = numbers_of(alloc, lines.by.rest.as_str())?;
    let keys = KeyRows {
        table,
        rows: &rows,
        columns: &columns,
    };
    if !are_in_range(&keys) {
        return Err(CaseError::Range);
    }
    put_keys(&keys, given);
    put_finds(rt, alloc, &keys, lines, given)
}

/// Whether a table has these rows and columns.
pub fn are_in_range(keys: &KeyRows<'_>) -> bool
    ensures { IsTrue result → AreInRange keys.now.table.now keys.now.rows.now keys.now.columns.now }
{
    let (rows, columns) = (keys.table.rows(), keys.table.columns());
    keys.rows.iter().all(|row| *row < rows) && keys.columns.iter().all(|column| *column < columns)
}

// Whether each number is below the next.
fn rises(numbers: &[u32]) -> bool
    ensures { IsTrue result → IsStrictlyIncreasing numbers.now }
{
    for place in 1..numbers.len() {
        if numbers[place] <= numbers[place - 1] {
            return false;
        }
    }
    true
}

fn put_keys(keys: &KeyRows<'_>, given: &mut String)
    requires { AreInRange keys.now.table.now keys.now.rows.now keys.now.columns.now }
{
    put(given, "kinds");
    for place in 0..keys.columns.len() {
        put(given, format_args!(" {:?}", keys.kind(place)));
    }
    put(given, "\n");
    for item in 0..keys.rows.len() {
        put(given, "key");
        for place in 0..keys.columns.len() {
            put(given, " ");
            put_cell(keys.cell(item, place), given);
        }
        put(given, "\n");
    }
}

fn put_finds<R: Threads + Sync>(
    rt: &R,
    alloc: Global,
    keys: &KeyRows<'_>,
    lines: &Lines<'_>,
    given: &mut String,
) -> Result<(), CaseError>
    requires { AreInRange keys.now.table.now keys.now.rows.now keys.now.columns.now }
{
    let parts = number_of(Some(lines.parts.rest.as_str()))?;
    if parts < 1 || 64 < parts || !rises(keys.rows) {
        return Err(CaseError::Range);
    }
    let build = Build::make(rt, alloc, keys, parts)?;
    let done = put_all(alloc, &build, lines.finds, given);
    drop(build);
    done
}

// Workers look up in one build.
fn is_shared<T: Send + Sync>(_shared: &T) {}

// The rows that each key finds.
fn put_all(
    alloc: Global,
    build: &Build,
    finds: &[Entry],
    given: &mut String,
) -> Result<(), CaseError> {
    is_shared(build);
    for find in finds {
        put_found(alloc, build, find.rest.as_str(), given)?;
    }
    Ok(())
}

fn put_found(alloc: Global, build: &Build, key: &str, given: &mut String) -> Result<(), CaseError> {
    let values = values_of(alloc, key)?;
    let mut cells = Vec::new(alloc);
    for value in &values {
        cells.push(cell_of(value))?;
    }
    let found = build.matches(&cells);
    put(given, format_args!("{found:?}\n"));
    Ok(())
}
