// The query of a script.
ghost use Rattle.std.specs.Prelude.{◌≤◌, length};

use binder::{BindError, Bound, bind};
use case_text::CaseError;
use rpt_base::limits::MAX_SCRIPT_BYTES;
use sql_lex::{LexError, lex};
use sql_text::{ParseError, Script, parse};
use std::alloc::Global;

/// The query that a script asks for. A script that is refused is out of the call's range.
pub fn query_of(alloc: Global, script: &[u8]) -> Result<Bound, CaseError> {
    if script.len() > MAX_SCRIPT_BYTES as usize {
        return Err(CaseError::Range);
    }
    let tokens = match lex(alloc, script) {
        Ok(tokens) => tokens,
        Err(LexError::At { offset: _ }) => return Err(CaseError::Range),
        Err(LexError::Memory) => return Err(CaseError::Memory),
    };
    match parse(alloc, &tokens, script.len() as u32) {
        Ok(script) => bound_of(alloc, script),
        Err(ParseError::Memory) => Err(CaseError::Memory),
        Err(_) => Err(CaseError::Range),
    }
}

// The script ends in a call of `drop`: where it ends at a branch, its proof is much larger.
fn bound_of(alloc: Global, script: Script) -> Result<Bound, CaseError>
    requires { 1 ≤ length script.select.sources }
{
    let bound = bound_by(alloc, &script);
    drop(script);
    bound
}

fn bound_by(alloc: Global, script: &Script) -> Result<Bound, CaseError>
    requires { 1 ≤ length script.now.select.sources }
{
    match bind(alloc, script) {
        Ok(bound) => Ok(bound),
        Err(BindError::Refused { kind: _, at: _ }) => Err(CaseError::Range),
        Err(BindError::Memory) => Err(CaseError::Memory),
    }
}
