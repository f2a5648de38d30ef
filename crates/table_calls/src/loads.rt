// Tables from the bytes of files.
use case_tables::{loaded, put_rows};
use case_text::{CaseError, put};
use csv_load::LoadError;
use std::alloc::Global;

/// Puts how many rows the table has that bytes are for a declaration, or why they are none.
pub fn put_count(
    alloc: Global,
    columns: &str,
    bytes: &[u8],
    given: &mut String,
) -> Result<(), CaseError> {
    match loaded(alloc, columns, bytes)? {
        Ok(table) => {
            put(given, format_args!("{}\n", table.rows()));
            Ok(())
        }
        Err(error) => put_refusal(error, given),
    }
}

fn put_refusal(error: LoadError, given: &mut String) -> Result<(), CaseError> {
    if error == LoadError::Memory {
        return Err(CaseError::Memory);
    }
    put(given, format_args!("{error}\n"));
    Ok(())
}

/// Puts the rows of the table that bytes are for a declaration, or why they are none.
pub fn put_loaded(
    alloc: Global,
    columns: &str,
    bytes: &[u8],
    given: &mut String,
) -> Result<(), CaseError> {
    match loaded(alloc, columns, bytes)? {
        Ok(table) => {
            put_rows(&table, given);
            Ok(())
        }
        Err(error) => put_refusal(error, given),
    }
}
