// Sets of rows.
use case_text::{CaseError, Entry, number_of, numbers_of, put};
use column_table::RowBits;
use std::alloc::Global;

/// Puts what a set of so many rows has, once rows are taken into it, and then whether it has those that are asked for.
pub fn put_bits(
    alloc: Global,
    rows: &str,
    entries: &[Entry],
    given: &mut String,
) -> Result<(), CaseError> {
    let mut bits = RowBits::none(alloc, number_of(Some(rows))?)?;
    for entry in entries {
        take(alloc, &mut bits, entry, given)?;
    }
    put_listed(alloc, &bits, given)
}

// Takes rows into a set, or puts whether it has them.
fn take(
    alloc: Global,
    bits: &mut RowBits,
    entry: &Entry,
    given: &mut String,
) -> Result<(), CaseError> {
    let rows = numbers_of(alloc, entry.rest.as_str())?;
    match entry.word.as_str() {
        "set" => set_rows(bits, &rows),
        "get" => get_rows(bits, &rows, given),
        _ => Err(CaseError::Word),
    }
}

fn put_listed(alloc: Global, bits: &RowBits, given: &mut String) -> Result<(), CaseError> {
    let listed = bits.listed(alloc)?;
    let listed = listed.as_slice();
    put(
        given,
        format_args!("{} of {}: {listed:?}\n", bits.count(), bits.rows()),
    );
    Ok(())
}

fn set_rows(bits: &mut RowBits, rows: &[u32]) -> Result<(), CaseError> {
    for row in rows {
        if *row >= bits.rows() {
            return Err(CaseError::Range);
        }
        bits.set(*row);
    }
    Ok(())
}

fn get_rows(bits: &RowBits, rows: &[u32], given: &mut String) -> Result<(), CaseError> {
    for row in rows {
        if *row >= bits.rows() {
            return Err(CaseError::Range);
        }
        put(given, format_args!("{}\n", bits.get(*row)));
    }
    Ok(())
}
