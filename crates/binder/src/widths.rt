// How many columns the relations have, and the variables that their equalities make.
ghost use Rattle.std.specs.Prelude.{◌≡◌, ◌≤◌, IfOk, length};
ghost use Rattle.column_classes.specs.Variables.{AreEqualities, AreQueryVariables, AreWidths};
ghost use Rattle.bound_query.specs.Query.{AreNarrow, columns_in, widths_in};

use column_classes::{Equality, Variables};
use column_table::Decl;
use rpt_base::Memory;
use std::alloc::Global;

/// The variables of the relations that have these tables, under these equalities.
pub(crate) fn variables(
    alloc: Global,
    tables: &[Decl],
    table_of: &[u32],
    equalities: &[Equality],
) -> Result<Variables, Memory>
    requires narrow { AreNarrow tables.now }
    requires widths { AreWidths (widths_in tables.now table_of.now) }
    requires equalities { AreEqualities (widths_in tables.now table_of.now) equalities.now }
    ensures { IfOk result (λ known. AreQueryVariables (widths_in tables.now table_of.now)
        equalities.now known) }
{
    let widths = widths(alloc, tables, table_of)?;
    Variables::find(alloc, &widths, equalities)
}

// How many columns each relation has.
fn widths(alloc: Global, tables: &[Decl], table_of: &[u32]) -> Result<Vec<u32>, Memory>
    requires { AreNarrow tables.now }
    ensures { IfOk result (λ widths. widths.items ≡ widths_in tables.now table_of.now) }
{
    let mut widths = Vec::new(alloc);
    'relations: for relation in 0..table_of.len() {
        widths.push(width(tables, table_of[relation]))?;
    }
    Ok(widths)
}

// How many columns a table has.
fn width(tables: &[Decl], table: u32) -> u32
    requires { AreNarrow tables.now }
    ensures { result ≡ length (columns_in tables.now table) }
{
    match tables.get(table as usize) {
        Some(decl) => decl.columns.as_slice().len() as u32,
        None => 0,
    }
}
