// Keys that are numbered by one column more.
ghost use Rattle.std.specs.Prelude.{◌≡◌, ◌+◌, ◌<◌, ◌≤◌, OnOk, length};
ghost use Rattle.column_table.specs.Table.{value_of};
ghost use Rattle.key_codes.specs.Columns.{AreNumbered, cell_value, column_pairs};
ghost use Rattle.key_codes.specs.Keys.{IsInRange};

use crate::KeyRows;
use crate::numbering::Numbering;
use rpt_base::{Cell, Memory};

/// A value of a key. A text is a table's own.
#[derive(Clone, Copy, PartialEq, Eq, Hash)]
pub(crate) enum KeyCell<'a> {
    Int(i64),
    Text(&'a [u8]),
}

/// Puts in place of each item's number that of the pair of it and the item's value in one of the key's columns. Pairs that
/// were not met go last.
pub(crate) fn number_column<'a>(
    pairs: &mut Numbering<(u32, KeyCell<'a>)>,
    keys: &KeyRows<'a>,
    place: usize,
    numbers: &mut [u32],
) -> Result<(), Memory>
    requires range { IsInRange keys.now }
    requires place { place < length keys.now.columns.now }
    requires items { length numbers.old ≡ length keys.now.rows.now }
    requires room { length pairs.old + length keys.now.rows.now < 4294967295 }
    ensures numbered { OnOk result (
        AreNumbered pairs.old pairs.new (column_pairs keys.now place numbers.old) numbers.new) }
    ensures grows { OnOk result (length pairs.new ≤ length pairs.old + length keys.now.rows.now) }
{
    for item in 0..numbers.len() {
        let pair = (numbers[item], key_cell(keys.cell(item, place)));
        let number = pairs.number(pair)?;
        numbers[item] = number;
    }
    Ok(())
}

// The cell as a value of a key.
fn key_cell<'a>(cell: Cell<'a>) -> KeyCell<'a>
    ensures { cell_value result ≡ value_of cell.entry }
{
    match cell {
        Cell::Int(number) => KeyCell::Int(number),
        Cell::Text(text) => KeyCell::Text(text),
    }
}
