// The conjuncts of a script.
ghost use Rattle.std.specs.Prelude.{◌≡◌, ◌++◌, IfOk, OnOk, map};
ghost use Rattle.std.specs.List.{flat_map};
ghost use Rattle.script_rules.specs.Conjuncts.{conjuncts_of, parts_of};
ghost use Rattle.binder.specs.Binding.{parts_given};

use rpt_base::Memory;
use sql_text::{Cond, Script};
use std::alloc::Global;

/// The conjuncts of a script: those of the joined sources in order, and then those of WHERE.
pub(crate) fn conjuncts<'a>(alloc: Global, script: &'a Script) -> Result<Vec<&'a Cond>, Memory>
    ensures { IfOk result (λ conjuncts. map (λ c. c.now) conjuncts.items
        ≡ conjuncts_of script.now) }
{
    let mut found = Vec::new(alloc);
    for source in script.select.sources.as_slice() {
        add_some(&source.on, &mut found)?;
    }
    add_some(&script.select.filter, &mut found)?;
    Ok(found)
}

// Puts the conjuncts of a condition that may be missing behind what was found.
fn add_some<'a>(cond: &'a Option<Cond>, found: &mut Vec<&'a Cond>) -> Result<(), Memory>
    ensures { OnOk result (map (λ c. c.now) found.new.items
        ≡ map (λ c. c.now) found.old.items ++ parts_given cond.now) }
{
    match cond {
        Some(cond) => add_parts(cond, found),
        None => Ok(()),
    }
}

// The same of a condition.
#[cycle(add_parts)]
fn add_parts<'a>(cond: &'a Cond, found: &mut Vec<&'a Cond>) -> Result<(), Memory>
    ensures { OnOk result (map (λ c. c.now) found.new.items
        ≡ map (λ c. c.now) found.old.items ++ parts_of cond.now) }
{
    match cond {
        Cond::And(members) => add_all_parts(members.as_slice(), found),
        _ => Ok(found.push(cond)?),
    }
}

#[cycle(add_parts)]
fn add_all_parts<'a>(conds: &'a [Cond], found: &mut Vec<&'a Cond>) -> Result<(), Memory>
    ensures { OnOk result (map (λ c. c.now) found.new.items
        ≡ map (λ c. c.now) found.old.items ++ flat_map parts_of conds.now) }
{
    for cond in conds {
        add_parts(cond, found)?;
    }
    Ok(())
}
