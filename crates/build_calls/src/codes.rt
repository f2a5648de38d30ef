// Numbers of the keys on two sides of an edge.
use crate::builds::are_in_range;
use case_tables::loaded;
use case_text::{Case, CaseError, Entry, numbers_of, put};
use column_table::Table;
use key_codes::{KeyRows, codes};
use std::alloc::Global;

/// Puts the numbers of the keys of two lists of a table's rows, and how many there are. The first line has the child's rows, the
/// second the columns of their keys; and so the third and the fourth of the parent.
pub fn put_codes(alloc: Global, case: &Case, given: &mut String) -> Result<(), CaseError> {
    let Ok(table) = loaded(alloc, case.head.as_str(), &case.text)? else {
        return Err(CaseError::Range);
    };
    put_codes_of(alloc, &table, &case.entries, given)
}

fn put_codes_of(
    alloc: Global,
    table: &Table,
    entries: &[Entry],
    given: &mut String,
) -> Result<(), CaseError> {
    let [of, by, with, on] = entries else {
        return Err(CaseError::Word);
    };
    let child_rows = numbers_of(alloc, of.rest.as_str())?;
    let child_columns = numbers_of(alloc, by.rest.as_str())?;
    let parent_rows = numbers_of(alloc, with.rest.as_str())?;
    let parent_columns = numbers_of(alloc, on.rest.as_str())?;
    let child = KeyRows {
        table,
        rows: &child_rows,
        columns: &child_columns,
    };
    let parent = KeyRows {
        table,
        rows: &parent_rows,
        columns: &parent_columns,
    };
    put_numbers(alloc, &child, &parent, given)
}

fn put_numbers<'a>(
    alloc: Global,
    child: &KeyRows<'a>,
    parent: &KeyRows<'a>,
    given: &mut String,
) -> Result<(), CaseError> {
    let items = child.rows.len().saturating_add(parent.rows.len());
    if !are_in_range(child) || !are_in_range(parent) || items >= 1000 {
        return Err(CaseError::Range);
    }
    if child.columns.len() != parent.columns.len() {
        return Err(CaseError::Range);
    }
    let made = codes(alloc, child, parent)?;
    let (child, parent) = (made.child.as_slice(), made.parent.as_slice());
    let count = made.count;
    put(
        given,
        format_args!("child {child:?}\nparent {parent:?}\ncount {count}\n"),
    );
    Ok(())
}
