// The rows of a relation that may take part in an answer.
ghost use Rattle.std.specs.Prelude.{◌≡◌, ◌<◌, ◌≤◌, IfOk, length};
ghost use Rattle.rpt_base.specs.declared.limits.TheConstants.{MAX_ROWS};
ghost use Rattle.std.specs.List.Sorted.{IsStrictlyIncreasing};
ghost use Rattle.bound_query.specs.Answer.{AreTables, table_at};
ghost use Rattle.join_laws.specs.Selected.{selected_rows};
ghost use Rattle.row_selection.specs.Linked.{AreRows};

use crate::linked::linked;
use bound_query::{Bound, table_at};
use column_table::Table;
use predicate::select;
use rpt_base::Memory;
use std::alloc::Global;

/// The rows of a relation that may take part in an answer, numbered from 0 and rising: its condition is true of them, and they have
/// the same value in each two linked columns of the relation.
pub fn selected(
    alloc: Global,
    bound: &Bound,
    tables: &[Table],
    relation: u32,
) -> Result<Vec<u32>, Memory>
    requires tables { AreTables bound.now.query tables.now }
    requires relation { relation < length bound.now.query.table_of }
    ensures rows { IfOk result (λ rows. rows.items ≡ selected_rows bound.now tables.now relation) }
    ensures rise { IfOk result (λ rows. IsStrictlyIncreasing rows.items) }
    ensures few { IfOk result (λ rows. length rows.items ≤ MAX_ROWS) }
    ensures below { IfOk result (λ rows. AreRows (table_at bound.now.query tables.now relation)
        rows.items) }
{
    let table = table_at(bound, tables, relation);
    // Its clause says how many rows there may be.
    let _rows = table.rows();
    let bits = select(alloc, bound.pred(relation), table)?;
    let rows = bits.listed(alloc)?;
    let pairs = bound.local(relation);
    if pairs.is_empty() {
        return Ok(rows);
    }
    // Its contract says that the pairs are of columns of the table.
    let _sets = bound.var_sets();
    linked(alloc, table, &rows, pairs)
}
