// Lists of variables side by side.
ghost use Rattle.std.specs.Prelude.{◌≡◌, ◌≤◌, IfOk, length, map};
ghost use Rattle.std.specs.List.{filter, list_any};
ghost use Rattle.rpt_base.specs.Lists.{has};

use rpt_base::Memory;
use std::alloc::Global;

// Whether the variable is one of these.
fn is_member(variables: &[u32], variable: u32) -> bool
    ensures { result ≡ has variable variables.now }
{
    variables.iter().any(|other| variable == *other)
}

// Whether one of the sets has the variable.
fn is_met(sets: &[Vec<u32>], variable: u32) -> bool
    ensures { result ≡ list_any (λ s. has variable s.items) sets.now }
{
    sets.iter().any(|set| is_member(set, variable))
}

/// How many of a relation's variables another one has.
pub(crate) fn count_shared(of: &[u32], with: &[u32]) -> usize
    ensures count { result ≡ length (filter (λ v. has v with.now) of.now) }
    ensures bounded { result ≤ length of.now }
{
    of.iter()
        .filter(|variable| is_member(with, **variable))
        .count()
}

/// Those of a relation's variables that another one has, in the first one's order.
pub(crate) fn list_shared(alloc: Global, of: &[u32], with: &[u32]) -> Result<Vec<u32>, Memory>
    ensures { IfOk result (λ shared. shared.items ≡ filter (λ v. has v with.now) of.now) }
{
    let shared = of
        .iter()
        .filter(|variable| is_member(with, **variable))
        .copied()
        .collect(alloc)?;
    Ok(shared)
}

/// How many of a relation's variables one of the sets has.
pub(crate) fn count_met(sets: &[Vec<u32>], of: &[u32]) -> usize
    ensures count { result ≡ length (filter (λ v. list_any (λ s. has v s.items) sets.now) of.now) }
    ensures bounded { result ≤ length of.now }
{
    of.iter()
        .filter(|variable| is_met(sets, **variable))
        .count()
}

// The same variables once more.
fn copied(alloc: Global, variables: &[u32]) -> Result<Vec<u32>, Memory>
    ensures { IfOk result (λ copy. copy.items ≡ variables.now) }
{
    let copy = variables.iter().copied().collect(alloc)?;
    Ok(copy)
}

/// The same sets once more.
pub(crate) fn copy_sets(alloc: Global, sets: &[Vec<u32>]) -> Result<Vec<Vec<u32>>, Memory>
    ensures { IfOk result (λ copies. map (λ s. s.items) copies.items
        ≡ map (λ s. s.items) sets.now) }
{
    let mut copies = Vec::new(alloc);
    for set in sets {
        copies.push(copied(alloc, set)?)?;
    }
    Ok(copies)
}
