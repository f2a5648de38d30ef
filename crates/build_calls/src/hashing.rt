// Hashes of bytes, of numbers and of keys.
use crate::builds::are_in_range;
use case_tables::loaded;
use case_text::{Case, CaseError, Entry, numbers_of, put};
use column_table::Table;
use key_codes::{KeyRows, fnv, hashes, mix};
use std::alloc::Global;

/// Puts the hash of the bytes behind the call's word.
pub fn put_fnv(head: &str, given: &mut String) {
    let hash = fnv(head.as_bytes());
    put(given, format_args!("{hash}\n"));
}

/// Puts what a number is mixed to.
pub fn put_mix(head: &str, given: &mut String) -> Result<(), CaseError> {
    let number = head.parse::<u64>().map_err(|_| CaseError::Number)?;
    let mixed = mix(number);
    put(given, format_args!("{mixed}\n"));
    Ok(())
}

/// Puts the hashes of the keys of a table's rows. The first line has the rows, and the second the columns of their keys.
pub fn put_hashes(alloc: Global, case: &Case, given: &mut String) -> Result<(), CaseError> {
    let Ok(table) = loaded(alloc, case.head.as_str(), &case.text)? else {
        return Err(CaseError::Range);
    };
    put_hashes_of(alloc, &table, &case.entries, given)
}

fn put_hashes_of(
    alloc: Global,
    table: &Table,
    entries: &[Entry],
    given: &mut String,
) -> Result<(), CaseError> {
    let [of, by] = entries else {
        return Err(CaseError::Word);
    };
    let rows = numbers_of(alloc, of.rest.as_str())?;
    let columns = numbers_of(alloc, by.rest.as_str())?;
    let keys = KeyRows {
        table,
        rows: &rows,
        columns: &columns,
    };
    if !are_in_range(&keys) {
        return Err(CaseError::Range);
    }
    let made = hashes(alloc, &keys)?;
    let made = made.as_slice();
    put(given, format_args!("{made:?}\n"));
    Ok(())
}
