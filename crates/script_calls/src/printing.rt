// Scripts as they are printed.
ghost use Rattle.std.specs.Prelude.{◌≤◌};
ghost use Rattle.sql_grammar.specs.Formed.{IsWellFormed};
ghost use Rattle.sql_print.specs.Printed.{script_levels};

use case_text::{CaseError, put};
use rpt_base::limits::MAX_SCRIPT_BYTES;
use sql_lex::{Token, lex};
use sql_print::{print, read_scripts_print};
use sql_text::{Script, parse};
use std::alloc::Global;
use std::str;

/// Puts a printed script, and what it is where it is read and printed once more, if that differs.
pub fn put_printed(alloc: Global, text: &[u8], given: &mut String) -> Result<(), CaseError> {
    put_text(text, given)?;
    let again = printed(alloc, text)?;
    if again.as_slice() != text {
        put(given, "again ");
        put_text(again.as_slice(), given)?;
    }
    Ok(())
}

fn put_text(text: &[u8], given: &mut String) -> Result<(), CaseError> {
    match str::from_utf8(text) {
        Ok(text) => {
            put(given, format_args!("{text}\n"));
            Ok(())
        }
        Err(_) => Err(CaseError::Range),
    }
}

/// A script as it is printed.
pub fn printed(alloc: Global, script: &[u8]) -> Result<Vec<u8>, CaseError> {
    if script.len() > MAX_SCRIPT_BYTES as usize {
        return Err(CaseError::Range);
    }
    match lex(alloc, script) {
        Ok(tokens) => printed_tokens(alloc, &tokens, script.len() as u32),
        Err(_) => Err(CaseError::Range),
    }
}

fn printed_tokens(alloc: Global, tokens: &[Token], end: u32) -> Result<Vec<u8>, CaseError> {
    read_scripts_print();
    match parse(alloc, tokens, end) {
        Ok(script) => printed_tree(alloc, script),
        Err(_) => Err(CaseError::Range),
    }
}

// The tree goes with the call and is dropped in one, since one that is held where a function branches or ends makes its proof much
// larger.
fn printed_tree(alloc: Global, script: Script) -> Result<Vec<u8>, CaseError>
    requires well_formed { IsWellFormed script }
    requires levels { script_levels script ≤ 64 }
{
    let text = print(alloc, &script);
    drop(script);
    Ok(text?)
}
