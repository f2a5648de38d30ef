// The tables of a query.
ghost use Rattle.std.specs.Prelude.{◌≡◌, ◌≤◌, IfOk, length};
ghost use Rattle.rpt_base.specs.declared.limits.TheConstants.{MAX_COLUMNS};
ghost use Rattle.column_table.specs.Table.{types_of};
ghost use Rattle.bound_query.specs.Answer.{AreTables};

use binder::Bound;
use case_text::{CaseError, Entry, put_text};
use column_table::{Decl, Table};
use csv_load::load;
use std::alloc::Global;

/// The tables of a query from the bytes that lines `table BYTES` write, in the order of first use.
pub fn tables_of(alloc: Global, bound: &Bound, entries: &[Entry]) -> Result<Vec<Table>, CaseError>
    ensures { IfOk result (λ tables. AreTables bound.now.query tables.items) }
{
    let mut tables = Vec::new(alloc);
    for number in 0..bound.tables() {
        let entry = entries.get(number as usize).ok_or(CaseError::Word)?;
        tables.push(table_of(alloc, bound.decl(number), entry)?)?;
    }
    Ok(tables)
}

fn table_of(alloc: Global, decl: &Decl, entry: &Entry) -> Result<Table, CaseError>
    requires { length decl.now.columns ≤ MAX_COLUMNS }
    ensures { IfOk result (λ table. table.kinds ≡ types_of decl.now.columns) }
{
    if entry.word.as_str() != "table" {
        return Err(CaseError::Word);
    }
    let mut bytes = Vec::new(alloc);
    put_text(&mut bytes, entry.rest.as_str())?;
    match load(alloc, &bytes, decl) {
        Ok(table) => Ok(table),
        Err(_) => Err(CaseError::Range),
    }
}
