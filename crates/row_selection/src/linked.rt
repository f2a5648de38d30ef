// Rows with the same value in linked columns.
ghost use Rattle.std.specs.Prelude.{◌≡◌, ◌<◌, [], IfOk, filter, length};
ghost use Rattle.row_selection.specs.Linked.{AreColumns, AreRows, has_equal, is_linked};

use column_table::Table;
use rpt_base::Memory;
use std::alloc::Global;

/// Those of these rows that have the same value in both columns of each pair.
pub(crate) fn linked(
    alloc: Global,
    table: &Table,
    rows: &[u32],
    pairs: &[(u32, u32)],
) -> Result<Vec<u32>, Memory>
    requires rows { AreRows table.now rows.now }
    requires pairs { AreColumns table.now pairs.now }
    ensures { IfOk result (λ kept. kept.items ≡ filter (is_linked table.now pairs.now) rows.now) }
{
    let mut kept = Vec::new(alloc);
    for row in rows {
        if is_linked(table, *row, pairs) {
            kept.push(*row)?;
        }
    }
    Ok(kept)
}

// Whether a row has equal values in both columns of each pair.
fn is_linked(table: &Table, row: u32, pairs: &[(u32, u32)]) -> bool
    requires row { row < length table.now.rows }
    requires pairs { AreColumns table.now pairs.now }
    ensures { result ≡ is_linked table.now pairs.now row }
{
    for (first, second) in pairs {
        if !has_equal(table, row, *first, *second) {
            return false;
        }
    }
    true
}

// Whether a row has equal values in two columns.
fn has_equal(table: &Table, row: u32, first: u32, second: u32) -> bool
    requires row { row < length table.now.rows }
    requires first { first < length table.now.kinds }
    requires second { second < length table.now.kinds }
    ensures { result ≡ has_equal table.now row (first, second) }
{
    table.cell(row, first) == table.cell(row, second)
}
