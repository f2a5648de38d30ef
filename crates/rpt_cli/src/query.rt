// The query of a script's file.
ghost use Rattle.std.specs.Prelude.{◌≡◌, ◌≤◌, ◌⊎◌, Err, IfErr, IfOk, Ok, Result, length};
ghost use Rattle.rpt_base.specs.declared.limits.TheConstants.{MAX_SCRIPT_BYTES};
ghost use Rattle.sql_grammar.specs.declared.tree.Script.{Script as Tree};
ghost use Rattle.refusal_lines.specs.declared.errors.Refusal.{Refusal as Why};
ghost use Rattle.rpt_cli.specs.Command.{bytes_course, query_of_script, script_course};
ghost use Rattle.rpt_cli.specs.Scripts.{IsScript};
ghost use Rattle.rpt_cli.specs.Steps.{AreKept, Passes, PassesUnasked, SaysScript, Stops, StopsUnasked};

use crate::fetch::fetch;
use binder::{BindError, Bound, bind};
use refusal_lines::Refusal;
use rpt_base::Str;
use rpt_base::limits::MAX_SCRIPT_BYTES;
use rpt_outside::Files;
use sql_lex::{LexError, lex};
use sql_text::{ParseError, Script, parse};
use std::alloc::Global;

/// Reads the script's file, and binds the script.
pub(crate) fn read_query<F: Files>(
    alloc: Global,
    files: &mut F,
    name: &Str,
) -> Result<Bound, Refusal>
    ensures passes { IfOk result (λ bound. Passes F.Files files.old files.new
        (script_course name.now) bound.query) }
    ensures refused { IfErr result (λ e. Stops F.Files files.old files.new
        (script_course name.now) e) }
    ensures kept { AreKept F.Files files.old files.new }
{
    let bytes = fetch(alloc, files, name, MAX_SCRIPT_BYTES)?;
    query_in(alloc, &bytes)
}

/// The query that the bytes of a script ask for.
pub(crate) fn query_in(alloc: Global, bytes: &[u8]) -> Result<Bound, Refusal>
    requires { length bytes.now ≤ MAX_SCRIPT_BYTES }
    ensures passes { IfOk result (λ bound. PassesUnasked (bytes_course bytes.now) bound.query) }
    ensures refused { IfErr result (λ e. StopsUnasked (bytes_course bytes.now) e) }
{
    match read_script(alloc, bytes) {
        Ok(script) => {
            let bound = bind_script(alloc, &script);
            drop(script);
            bound
        }
        Err(refusal) => Err(refusal),
    }
}

// What a script is bound to, or its first refusal.
fn bind_script(alloc: Global, script: &Script) -> Result<Bound, Refusal>
    requires { 1 ≤ length script.now.select.sources }
    ensures bound { IfOk result (λ bound. query_of_script script.now ≡ Ok bound.query) }
    ensures refused { IfErr result (λ e. (e ≡ Refusal.Memory)
        ⊎ (query_of_script script.now ≡ Err e)) }
{
    match bind(alloc, script) {
        Ok(bound) => Ok(bound),
        Err(BindError::Refused { kind, at }) => Err(Refusal::Bind { kind, offset: at }),
        Err(BindError::Memory) => Err(Refusal::Memory),
    }
}

// The script that the bytes are, or their refusal as none.
fn read_script(alloc: Global, bytes: &[u8]) -> Result<Script, Refusal>
    requires { length bytes.now ≤ MAX_SCRIPT_BYTES }
    ensures says { SaysScript bytes.now result }
    ensures sources { IfOk result (λ script. 1 ≤ length script.select.sources) }
    ensures only { (said : Result Tree Why) → IsScript bytes.now said
        → (result ≡ Err Refusal.Memory) ⊎ (result ≡ said) }
{
    let tokens = match lex(alloc, bytes) {
        Ok(tokens) => tokens,
        Err(LexError::At { offset }) => return Err(Refusal::Lex { offset }),
        Err(LexError::Memory) => return Err(Refusal::Memory),
    };
    match parse(alloc, &tokens, bytes.len() as u32) {
        Ok(script) => Ok(script),
        Err(ParseError::Syntax { at }) => Err(Refusal::Syntax { offset: at }),
        Err(ParseError::TooDeep { at }) => Err(Refusal::TooDeep { offset: at }),
        Err(ParseError::Memory) => Err(Refusal::Memory),
    }
}
