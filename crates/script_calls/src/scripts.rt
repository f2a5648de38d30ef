// What is asked of a script, from its bytes on.
ghost use Rattle.std.specs.Prelude.{◌≤◌, length};
ghost use Rattle.rpt_base.specs.declared.limits.TheConstants.{MAX_LEVELS};
ghost use Rattle.sql_grammar.specs.Formed.{IsWellFormed};
ghost use Rattle.sql_print.specs.Printed.{script_levels};

use crate::printing::put_printed;
use crate::queries::{put_bound, put_fits};
use crate::tokens::put_tokens;
use crate::trees::put_tree;
use binder::{bind, first_violation};
use case_text::{CaseError, put};
use rpt_base::limits::MAX_SCRIPT_BYTES;
use sql_lex::{LexError, Token, lex};
use sql_print::{print, read_scripts_print};
use sql_text::{Script, parse};
use std::alloc::Global;

/// Puts what a script's tokens, tree, print, first refusal or bound query is, by the call's word.
pub fn put_script(
    alloc: Global,
    word: &str,
    script: &[u8],
    given: &mut String,
) -> Result<(), CaseError> {
    if script.len() > MAX_SCRIPT_BYTES as usize {
        return Err(CaseError::Range);
    }
    match lex(alloc, script) {
        Ok(tokens) if word == "tokens" => {
            put_tokens(&tokens, given);
            Ok(())
        }
        Ok(tokens) => put_parsed(alloc, word, &tokens, script.len() as u32, given),
        Err(LexError::At { offset }) => {
            put(given, format_args!("bad at {offset}\n"));
            Ok(())
        }
        Err(LexError::Memory) => Err(CaseError::Memory),
    }
}

// What is asked of tokens. A call's condition comes from the clauses of `parse`, so that these calls stand here.
fn put_parsed(
    alloc: Global,
    word: &str,
    tokens: &[Token],
    end: u32,
    given: &mut String,
) -> Result<(), CaseError> {
    read_scripts_print();
    match parse(alloc, tokens, end) {
        Ok(script) => put_tree_of(alloc, word, script, given),
        Err(error) => {
            put(given, format_args!("{error}\n"));
            Ok(())
        }
    }
}

// The tree goes with the call and is dropped in one, since one that is held where a function branches or ends makes its proof much
// larger.
fn put_tree_of(
    alloc: Global,
    word: &str,
    script: Script,
    given: &mut String,
) -> Result<(), CaseError>
    requires well_formed { IsWellFormed script }
    requires levels { script_levels script ≤ 64 }
    requires sources { 1 ≤ length script.select.sources }
{
    let done = put_read(alloc, word, &script, given);
    drop(script);
    done
}

// What is asked of a script that was read.
fn put_read(alloc: Global, word: &str, script: &Script, given: &mut String) -> Result<(), CaseError>
    requires well_formed { IsWellFormed script.now }
    requires levels { script_levels script.now ≤ MAX_LEVELS }
    requires sources { 1 ≤ length script.now.select.sources }
{
    match word {
        "tree" => put_tree(script, given),
        "print" => return put_printed(alloc, &print(alloc, script)?, given),
        "violation" => put_violation(script, given),
        "bind" => put_bound(bind(alloc, script), given),
        "fits" => return put_fits(alloc, bind(alloc, script), given),
        _ => return Err(CaseError::Word),
    }
    Ok(())
}

fn put_violation(script: &Script, given: &mut String) {
    if let Some(violation) = first_violation(script) {
        put(
            given,
            format_args!("{:?} at {}\n", violation.kind, violation.at),
        );
    }
}
