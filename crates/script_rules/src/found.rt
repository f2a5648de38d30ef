// The first of the violations that have been found.
ghost use Rattle.std.specs.Prelude.{◌≡◌};
ghost use Rattle.script_rules.specs.Violations.{comes_before, earlier, violation_if, first_of, merged};

use crate::kinds::BindKind;

/// A rule of binding that a script breaks: the offset of its place in the script's bytes, from 0, and which rule. The first of them
/// is why the script is refused.
#[derive(Clone, Copy)]
pub struct Violation {
    pub at: u32,
    pub kind: BindKind,
}

// Whether a violation stands before another: by its place, and at one place by its kind.
fn comes_before(violation: Violation, other: Violation) -> bool
    ensures { result ≡ comes_before violation other }
{
    if violation.at == other.at {
        violation.kind.rank() < other.kind.rank()
    } else {
        violation.at < other.at
    }
}

// The first of those that were found, with one more.
pub(crate) fn note(found: Option<Violation>, violation: Violation) -> Option<Violation>
    ensures { result ≡ earlier found violation }
{
    match found {
        Some(first) if !comes_before(violation, first) => Some(first),
        _ => Some(violation),
    }
}

// The same where the test holds.
#[tactic(auto, unfolding(crate::specs::Violations::first_of, crate::specs::Violations::violation_if))]
pub(crate) fn note_if(
    found: Option<Violation>,
    holds: bool,
    at: u32,
    kind: BindKind,
) -> Option<Violation>
    ensures { result ≡ first_of found (violation_if holds at kind) }
{
    if holds {
        note(found, Violation { at, kind })
    } else {
        found
    }
}

// The first of two.
pub(crate) fn merge(found: Option<Violation>, other: Option<Violation>) -> Option<Violation>
    ensures { result ≡ merged found other }
{
    match other {
        Some(violation) => note(found, violation),
        None => found,
    }
}
