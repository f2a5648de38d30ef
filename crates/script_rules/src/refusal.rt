// The refusal of a script.
ghost use Rattle.std.specs.Prelude.{◌≡◌, IfNone};
ghost use Rattle.script_rules.specs.Scope.{IsWithinLimits};
ghost use Rattle.script_rules.specs.Violations.{first_by_phase, query_phases, refusal_of};

use crate::conditions::in_conditions;
use crate::found::Violation;
use crate::operands::in_items;
use crate::scope::Scope;
use crate::tables::{in_sources, in_tables};
use sql_text::Script;

/// The refusal of a script, if it is refused: of all that hold the one of the first phase, then of the least place, then of
/// the kind that is listed first.
///
/// The phases are the created tables, the sources, the list of items, and the conditions.
pub fn first_violation(script: &Script) -> Option<Violation>
    ensures violation { result ≡ refusal_of script.now }
    ensures limits { IfNone result (IsWithinLimits script.now) }
{
    if let Some(violation) = in_tables(script.tables.as_slice()) {
        return Some(violation);
    }
    if let Some(violation) = in_sources(
        script.tables.as_slice(),
        script.select.sources.as_slice(),
    ) {
        return Some(violation);
    }
    in_query(&Scope::of(script), script)
}

// The first refusal of the list of items and the conditions.
fn in_query(scope: &Scope, script: &Script) -> Option<Violation>
    ensures { result ≡ first_by_phase (query_phases scope.now script.now) }
{
    match in_items(scope, &script.select.items) {
        Some(violation) => Some(violation),
        None => in_conditions(scope, script),
    }
}
