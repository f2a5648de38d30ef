// The lines that write a text.
use crate::errors::CaseError;
use crate::escapes::put_text;
use crate::lines::{Line, pair_of};
use std::alloc::Global;

/// Puts what a line writes behind the others, and says whether it writes a text at all.
pub fn put_line(alloc: Global, into: &mut Vec<u8>, line: Line<'_>) -> Result<bool, CaseError> {
    let done = match line.word {
        "|" => put_whole(into, line.rest),
        "+" => put_text(into, line.rest),
        "each" => put_each(alloc, into, line.rest),
        _ => return Ok(false),
    };
    done?;
    Ok(true)
}

// A text and an end of line.
fn put_whole(into: &mut Vec<u8>, text: &str) -> Result<(), CaseError> {
    put_text(into, text)?;
    into.push(b'\n')?;
    Ok(())
}

// Two numbers and a text: the text for each number from the first to the last.
fn put_each(alloc: Global, into: &mut Vec<u8>, rest: &str) -> Result<(), CaseError> {
    let Some((first, rest)) = rest.split_once(' ') else {
        return Err(CaseError::Number);
    };
    let Some((last, text)) = rest.split_once(' ') else {
        return Err(CaseError::Number);
    };
    let (first, last) = pair_of(Some(first), Some(last))?;
    if text.contains("{n}") {
        return put_numbered(alloc, into, first, last, text);
    }
    put_often(into, first, last, text)
}

// The text for each number, which stands in place of `{n}`.
fn put_numbered(
    alloc: Global,
    into: &mut Vec<u8>,
    first: u32,
    last: u32,
    text: &str,
) -> Result<(), CaseError> {
    for number in first..=last {
        put_one(alloc, into, number, text)?;
    }
    Ok(())
}

fn put_one(alloc: Global, into: &mut Vec<u8>, number: u32, text: &str) -> Result<(), CaseError> {
    let number = format!(in alloc; "{number}")?;
    let text = text.replace(alloc, "{n}", number.as_str())?;
    put_text(into, text.as_str())
}

// One text for each number. Without numbers in it, it is put at once, since there may be millions.
fn put_often(into: &mut Vec<u8>, first: u32, last: u32, text: &str) -> Result<(), CaseError> {
    for _number in first..=last {
        put_text(into, text)?;
    }
    Ok(())
}
