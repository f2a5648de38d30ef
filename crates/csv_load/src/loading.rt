// A table from the bytes of its file.
ghost use Rattle.std.specs.Prelude.{◌≡◌, ◌≤◌, [], IfOk, OnOk, length};
ghost use Rattle.rpt_base.specs.declared.limits.TheConstants.{MAX_COLUMNS, MAX_ROWS};
ghost use Rattle.csv_load.specs.FileTable.{file_table, table_in};
ghost use Rattle.csv_load.specs.Layouts.{rows_in};
ghost use Rattle.column_table.specs.Table.{types_of};
ghost use Rattle.csv_load.specs.Loads.{Refuses};

use crate::errors::LoadError;
use crate::layout::RowLayout;
use crate::records::RecordReader;
use column_table::{ColumnDecl, Decl, Table, TableBuilder};
use csv::ByteRecord;
use rpt_base::limits::MAX_ROWS;
use rpt_base::{ColumnType, Memory};
use std::alloc::Global;

/// The table of a file for a declaration of at most 64 columns.
///
/// The records are those of RFC 4180 in the default dialect of the crate `csv`, the header first; a leading byte order mark
/// is dropped. A declared column is found by its name, whatever the case of its ASCII letters; further columns are passed
/// over. Each refusal but want of memory comes exactly where the file has it: the header's first, then that of the first
/// bad record.
pub fn load(alloc: Global, bytes: &[u8], decl: &Decl) -> Result<Table, LoadError>
    requires { length decl.now.columns ≤ MAX_COLUMNS }
    ensures rows { IfOk result (λ table. file_table MAX_ROWS decl.now.columns bytes.now
        ≡ Ok table.rows) }
    ensures kinds { IfOk result (λ table. table.kinds ≡ types_of decl.now.columns) }
    ensures refused { Refuses (file_table MAX_ROWS decl.now.columns bytes.now) result }
{
    table_within(alloc, MAX_ROWS, decl.columns.as_slice(), bytes)
}

/// The table of a file for these columns, with at most so many rows.
pub(crate) fn table_within(
    alloc: Global,
    limit: u32,
    columns: &[ColumnDecl],
    bytes: &[u8],
) -> Result<Table, LoadError>
    requires columns { length columns.now ≤ MAX_COLUMNS }
    requires limit { limit ≤ MAX_ROWS }
    ensures rows { IfOk result (λ table. file_table limit columns.now bytes.now ≡ Ok table.rows) }
    ensures kinds { IfOk result (λ table. table.kinds ≡ types_of columns.now) }
    ensures refused { Refuses (file_table limit columns.now bytes.now) result }
{
    let mut reader = RecordReader::new(alloc, bytes);
    let table = table_of(alloc, limit, columns, &mut reader);
    drop(reader);
    table
}

// The table of the records that a reader gives, the header first.
fn table_of(
    alloc: Global,
    limit: u32,
    columns: &[ColumnDecl],
    reader: &mut RecordReader,
) -> Result<Table, LoadError>
    requires columns { length columns.now ≤ MAX_COLUMNS }
    requires limit { limit ≤ MAX_ROWS }
    ensures rows { IfOk result (λ table. table_in limit columns.now reader.old ≡ Ok table.rows) }
    ensures kinds { IfOk result (λ table. table.kinds ≡ types_of columns.now) }
    ensures refused { Refuses (table_in limit columns.now reader.old) result }
{
    let mut header = ByteRecord::new(alloc);
    // A file without records is read as one with an empty header.
    match reader.next_into(&mut header) {
        Ok(true) => {}
        Ok(false) => header.clear(),
        Err(_) => return Err(LoadError::Memory),
    }
    let layout = RowLayout::find(alloc, columns, header)?;
    let mut builder = empty(alloc, columns)?;
    fill_rows(alloc, limit, &layout, reader, &mut builder)?;
    Ok(builder.finish())
}

// A table with these columns and without rows.
fn empty(alloc: Global, columns: &[ColumnDecl]) -> Result<TableBuilder, Memory>
    requires { length columns.now ≤ MAX_COLUMNS }
    ensures { IfOk result (λ b. b ≡ record { kinds = types_of columns.now; rows = []; started = [] }) }
{
    let kinds = kinds(alloc, columns)?;
    TableBuilder::new(alloc, kinds.as_slice())
}

fn kinds(alloc: Global, columns: &[ColumnDecl]) -> Result<Vec<ColumnType>, Memory>
    ensures { IfOk result (λ kinds. kinds.items ≡ types_of columns.now) }
{
    let kinds = columns.iter().map(|c| c.kind).collect(alloc)?;
    Ok(kinds)
}

// Fills the rows of the records that are left, of which there may be so many.
fn fill_rows(
    alloc: Global,
    limit: u32,
    layout: &RowLayout,
    reader: &mut RecordReader,
    builder: &mut TableBuilder,
) -> Result<(), LoadError>
    requires limit { limit ≤ MAX_ROWS }
    requires empty { builder.old ≡ record { kinds = types_of layout.now.columns; rows = []; started = [] } }
    ensures rows { OnOk result (rows_in limit layout.now reader.old ≡ Ok builder.new.rows) }
    ensures kinds { OnOk result (builder.new.kinds ≡ types_of layout.now.columns) }
    ensures refused { Refuses (rows_in limit layout.now reader.old) result }
{
    let mut record = ByteRecord::new(alloc);
    let filled = fill_by(limit, layout, reader, &mut record, builder);
    drop(record);
    filled
}

// The same, with a record that each one is read into.
fn fill_by(
    limit: u32,
    layout: &RowLayout,
    reader: &mut RecordReader,
    fields: &mut ByteRecord,
    builder: &mut TableBuilder,
) -> Result<(), LoadError>
    requires limit { limit ≤ MAX_ROWS }
    requires empty { builder.old ≡ record { kinds = types_of layout.now.columns; rows = []; started = [] } }
    ensures rows { OnOk result (rows_in limit layout.now reader.old ≡ Ok builder.new.rows) }
    ensures kinds { OnOk result (builder.new.kinds ≡ types_of layout.now.columns) }
    ensures refused { Refuses (rows_in limit layout.now reader.old) result }
{
    'records: for row in 0..limit {
        match reader.next_into(fields) {
            Ok(true) => {}
            Ok(false) => return Ok(()),
            Err(_) => return Err(LoadError::Memory),
        }
        layout.fill(row, fields, builder)?;
        builder.end_row();
    }
    // A record past the limit is one too many whatever it holds.
    match reader.next_into(fields) {
        Ok(true) => Err(LoadError::TooManyRows),
        Ok(false) => Ok(()),
        Err(_) => Err(LoadError::Memory),
    }
}
