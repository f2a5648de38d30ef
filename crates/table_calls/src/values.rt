// Texts, names, and values in their order.
use case_tables::{cell_of, values_of};
use case_text::{Case, CaseError, numbers_of, put};
use rpt_base::{Listed, Name, Str, StrError};
use std::alloc::Global;

/// Puts the text of a case's bytes, if they are one; and that it isn't the same as its copies, if so.
pub fn put_text(alloc: Global, case: &Case, given: &mut String) -> Result<(), CaseError> {
    put_text_of(alloc, &case.whole_text(alloc)?, given)
}

fn put_text_of(alloc: Global, bytes: &[u8], given: &mut String) -> Result<(), CaseError> {
    match Str::from_bytes(alloc, bytes) {
        Ok(text) => put_copies(alloc, &text, bytes, given),
        Err(StrError::NotUtf8) => {
            put(given, "not UTF-8\n");
            Ok(())
        }
        Err(StrError::Memory) => Err(CaseError::Memory),
    }
}

fn put_copies(
    alloc: Global,
    text: &Str,
    bytes: &[u8],
    given: &mut String,
) -> Result<(), CaseError> {
    put(given, format_args!("{}\n", text.as_str()));
    let copy = text.copy(alloc)?;
    let same = Str::from_text(alloc, text.as_str())?;
    if copy != *text || same != *text || text.bytes() != bytes {
        put(given, "and another\n");
    }
    Ok(())
}

/// Puts the name of a case's bytes, if they are one; and its copy, if that differs.
pub fn put_name(alloc: Global, case: &Case, given: &mut String) -> Result<(), CaseError> {
    put_name_of(alloc, &case.whole_text(alloc)?, given)
}

fn put_name_of(alloc: Global, bytes: &[u8], given: &mut String) -> Result<(), CaseError> {
    if !Name::fits(bytes) {
        put(given, "no name\n");
        return Ok(());
    }
    let name = Name::make(alloc, bytes)?;
    put(given, format_args!("{}\n", name.as_str()));
    let copy = name.copy(alloc)?;
    if copy.bytes() != name.bytes() {
        put(given, format_args!("and {}\n", copy.as_str()));
    }
    Ok(())
}

/// Puts whether each value is less than the next, as a value and as a cell.
pub fn put_rising(alloc: Global, text: &str, given: &mut String) -> Result<(), CaseError> {
    let values = values_of(alloc, text)?;
    for place in 1..values.len() {
        let (first, next) = (&values[place - 1], &values[place]);
        let (by_value, by_cell) = (first < next, cell_of(first) < cell_of(next));
        put(given, format_args!("{by_value} {by_cell}\n"));
    }
    Ok(())
}

/// Puts the items of a list, as a slice and as the `Vec` that it was made from.
pub fn put_listed(alloc: Global, text: &str, given: &mut String) -> Result<(), CaseError> {
    let listed = Listed::from_vec(numbers_of(alloc, text)?);
    put(given, format_args!("{:?}\n", listed.as_slice()));
    let items = listed.into_vec();
    put(given, format_args!("{:?}\n", items.as_slice()));
    Ok(())
}
