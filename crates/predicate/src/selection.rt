// The rows of which a condition is true.
ghost use Rattle.std.specs.Prelude.{◌≡◌, IfOk, IsTrue, map};
ghost use Rattle.predicate.specs.Truth.{is_true, is_typed};

use crate::tree::Pred;
use crate::truth::holds;
use column_table::{RowBits, Table};
use rpt_base::Memory;
use std::alloc::Global;

/// The rows of a table of which a condition is true: a bit for each row, set where `holds` answers yes.
pub fn select(alloc: Global, pred: &Pred, table: &Table) -> Result<RowBits, Memory>
    requires typed { IsTrue (is_typed table.now.kinds pred.now) }
    ensures { IfOk result (λ bits. bits ≡ map (is_true pred.now) table.now.rows) }
{
    let rows = table.rows();
    let mut bits = RowBits::none(alloc, rows)?;
    for row in 0..rows {
        if holds(pred, table, row) {
            bits.set(row);
        }
    }
    Ok(bits)
}
