// Tables, as they are written and printed.
ghost use Rattle.std.specs.Prelude.{◌<◌, ◌≤◌, IfOk, length};

use crate::values::put_cell;
use case_text::{CaseError, push_read, put};
use column_table::{ColumnDecl, Decl, Table};
use csv_load::{LoadError, load};
use rpt_base::limits::MAX_COLUMNS;
use rpt_base::{ColumnType, Listed, Name};
use std::alloc::Global;

/// The table of bytes for columns as they are declared: a name and a type each, and a comma between two.
pub fn loaded(
    alloc: Global,
    columns: &str,
    bytes: &[u8],
) -> Result<Result<Table, LoadError>, CaseError> {
    let decl = Decl {
        name: name_of(alloc, "t")?,
        columns: Listed::from_vec(columns_of(alloc, columns)?),
    };
    if decl.columns.as_slice().len() > MAX_COLUMNS as usize {
        return Err(CaseError::Range);
    }
    Ok(load(alloc, bytes, &decl))
}

fn columns_of(alloc: Global, text: &str) -> Result<Vec<ColumnDecl>, CaseError> {
    let mut columns = Vec::new(alloc);
    for column in text.split(',') {
        push_read(&mut columns, column_of(alloc, column.trim()))?;
    }
    Ok(columns)
}

fn column_of(alloc: Global, text: &str) -> Result<ColumnDecl, CaseError> {
    let Some((name, kind)) = text.split_once(' ') else {
        return Err(CaseError::Word);
    };
    let kind = kind_of(kind)?;
    let name = name_of(alloc, name)?;
    Ok(ColumnDecl { name, kind })
}

fn name_of(alloc: Global, text: &str) -> Result<Name, CaseError> {
    if !Name::fits(text.as_bytes()) {
        return Err(CaseError::Range);
    }
    Ok(Name::make(alloc, text.as_bytes())?)
}

fn kind_of(text: &str) -> Result<ColumnType, CaseError> {
    match text {
        "INT" => Ok(ColumnType::Int),
        "TEXT" => Ok(ColumnType::Text),
        _ => Err(CaseError::Word),
    }
}

/// Puts a table's rows, a line for each.
pub fn put_rows(table: &Table, given: &mut String) {
    for row in 0..table.rows() {
        put_row(table, row, given);
    }
}

fn put_row(table: &Table, row: u32, given: &mut String)
    requires { row < length table.now.rows }
{
    for column in 0..table.columns() {
        if 0 < column {
            put(given, " ");
        }
        put_cell(table.cell(row, column), given);
    }
    put(given, "\n");
}
