// Binding.
ghost use Rattle.std.specs.Prelude.{◌≡◌, ◌≤◌, IfOk, Err, None, Some, ℕ, length};
ghost use Rattle.binder.specs.Binding.{query_of};
ghost use Rattle.script_rules.specs.Violations.{refusal_of};
ghost use Rattle.script_rules.specs.declared.kinds.BindKind.{BindKind as Kind};

use crate::conjuncts::conjuncts;
use crate::errors::BindError;
use crate::shown::output;
use crate::translate::conditions;
use crate::used::{aliases, table_numbers, tables_of};
use crate::widths::variables;
use crate::written::equalities;
use bound_query::{Bound, QueryParts};
use rpt_base::Memory;
use script_rules::{Scope, first_violation};
use sql_text::Script;
use std::alloc::Global;

/// Binds a script: Ok exactly where no refusal holds of it, and then with what its names resolve to; or else the first of
/// its refusals. It selects from one source at least, as each script that is read does.
pub fn bind(alloc: Global, script: &Script) -> Result<Bound, BindError>
    requires sources { 1 ≤ length script.now.select.sources }
    ensures bound { IfOk result (λ b. b.query ≡ query_of script.now) }
    ensures none { IfOk result (λ b. refusal_of script.now ≡ None) }
    ensures refused { (kind : Kind) (at : ℕ) → result ≡ Err (BindError.Refused kind at)
        → refusal_of script.now ≡ Some (record { at = at; kind = kind }) }
{
    if let Some(violation) = first_violation(script) {
        return Err(BindError::Refused {
            kind: violation.kind,
            at: violation.at,
        });
    }
    match bound(alloc, script) {
        Ok(bound) => Ok(bound),
        Err(_) => Err(BindError::Memory),
    }
}

// What a script that isn't refused is bound to.
fn bound(alloc: Global, script: &Script) -> Result<Bound, Memory>
    requires sources { 1 ≤ length script.now.select.sources }
    requires none { refusal_of script.now ≡ None }
    ensures { IfOk result (λ b. b.query ≡ query_of script.now) }
{
    let scope = Scope::of(script);
    let aliases = aliases(alloc, script)?;
    let tables = tables_of(alloc, script)?;
    let table_of = table_numbers(alloc, script, tables.as_slice())?;
    let found = conjuncts(alloc, script)?;
    let conjuncts = found.as_slice();
    let conditions = conditions(alloc, &scope, conjuncts)?;
    let equalities = equalities(alloc, &scope, conjuncts)?;
    let output = output(alloc, &scope, &script.select.items)?;
    let variables = variables(
        alloc,
        tables.as_slice(),
        table_of.as_slice(),
        equalities.as_slice(),
    )?;
    let parts = QueryParts {
        aliases,
        tables,
        table_of,
        conditions,
        equalities,
        output,
    };
    Ok(Bound::make(parts, variables))
}
