// Values, as they are written and printed.
use case_text::{CaseError, push_read, put, put_text};
use rpt_base::{Cell, Str, Value};
use std::alloc::Global;
use std::str;

// A value: a number, or a text in quotes.
fn value_of(alloc: Global, text: &str) -> Result<Value, CaseError> {
    match quoted(text) {
        Some(inner) => {
            let mut bytes = Vec::new(alloc);
            put_text(&mut bytes, inner)?;
            match Str::from_bytes(alloc, &bytes) {
                Ok(text) => Ok(Value::Text(text)),
                Err(_) => Err(CaseError::Escape),
            }
        }
        None => Ok(Value::Int(int_of(text)?)),
    }
}

/// What stands between two quotes.
pub fn quoted(text: &str) -> Option<&str> {
    text.strip_prefix('\'')?.strip_suffix('\'')
}

/// A number of 64 bits.
pub fn int_of(text: &str) -> Result<i64, CaseError> {
    text.parse::<i64>().map_err(|_| CaseError::Number)
}

/// Values with a blank between two.
pub fn values_of(alloc: Global, text: &str) -> Result<Vec<Value>, CaseError> {
    let mut values = Vec::new(alloc);
    for value in text.split_whitespace() {
        push_read(&mut values, value_of(alloc, value))?;
    }
    Ok(values)
}

/// A value as a cell.
pub fn cell_of(value: &Value) -> Cell<'_> {
    match value {
        Value::Int(number) => Cell::Int(*number),
        Value::Text(text) => Cell::Text(text.bytes()),
    }
}

/// Puts a cell as a value is written.
pub fn put_cell(cell: Cell<'_>, given: &mut String) {
    match cell {
        Cell::Int(number) => put(given, format_args!("{number}")),
        Cell::Text(text) => match str::from_utf8(text) {
            Ok(text) => put(given, format_args!("'{text}'")),
            Err(_) => put(given, "not UTF-8"),
        },
    }
}
