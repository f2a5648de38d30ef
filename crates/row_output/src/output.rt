// The text of an answer.
ghost use Rattle.std.specs.Prelude.{◌≡◌, ◌∷◌, [], IfOk, OnOk};
ghost use Rattle.std.specs.List.{All};
ghost use Rattle.column_table.specs.FieldText.{field_text};
ghost use Rattle.column_table.specs.Table.{value_of};
ghost use Rattle.csv.specs.Records.{fields_of, partial_of};
ghost use Rattle.csv.specs.Writing.{default_writer, row_text};
ghost use Rattle.bound_query.specs.Answer.{AreTables};
ghost use Rattle.row_output.specs.OutputText.{cells, output_text, rows_text, titles};
ghost use Rattle.row_output.specs.Tuples.{AreRowNumbers};
ghost use Rattle.row_output.specs.Writing.{PutsField, WritesMore};

use crate::answer::Answer;
use crate::cells::cell_at;
use bound_query::{Bound, OutColumn};
use column_table::Table;
use csv::{ByteRecord, Writer, WriterBuilder};
use itoa::Buffer;
use rpt_base::{Cell, Memory};
use std::alloc::Global;

/// The record of the titles, and then a record of the selected cells for each row of an answer, in its order, as the default
/// writer of the crate `csv` writes them (RFC 4180). Numbers are in decimal.
///
/// There is one table for each that the query declares, and each row of the answer has a number for each relation, that of one
/// of the relation's rows.
pub fn text(
    alloc: Global,
    answer: &Answer,
    bound: &Bound,
    tables: &[Table],
) -> Result<Vec<u8>, Memory>
    requires tables { AreTables bound.now.query tables.now }
    requires rows { All (AreRowNumbers bound.now.query tables.now) answer.now.rows }
    ensures { IfOk result (λ text. text.items
        ≡ output_text bound.now.query tables.now answer.now.rows) }
{
    let mut writer = WriterBuilder::new().from_writer(Vec::new(alloc));
    let mut fields = ByteRecord::new(alloc);
    put_titles(&mut fields, bound.output())?;
    write(&mut writer, &fields)?;
    write_rows(&mut writer, &mut fields, answer, bound, tables)?;
    match writer.into_inner() {
        Ok(text) => Ok(text),
        Err(_) => Err(Memory),
    }
}

// Writes a record for each row, with one record used again for all of them.
fn write_rows(
    writer: &mut Writer<Vec<u8>>,
    fields: &mut ByteRecord,
    answer: &Answer,
    bound: &Bound,
    tables: &[Table],
) -> Result<(), Memory>
    requires tables { AreTables bound.now.query tables.now }
    requires rows { All (AreRowNumbers bound.now.query tables.now) answer.now.rows }
    ensures { WritesMore result writer.old writer.new
        (rows_text bound.now.query tables.now answer.now.rows) }
{
    'rows: for row in 0..answer.count() {
        write_row(writer, fields, answer.row(row), bound, tables)?;
    }
    Ok(())
}

fn write_row(
    writer: &mut Writer<Vec<u8>>,
    fields: &mut ByteRecord,
    numbers: &[u32],
    bound: &Bound,
    tables: &[Table],
) -> Result<(), Memory>
    requires tables { AreTables bound.now.query tables.now }
    requires numbers { AreRowNumbers bound.now.query tables.now numbers.now }
    ensures { WritesMore result writer.old writer.new
        (rows_text bound.now.query tables.now (numbers.now ∷ [])) }
{
    put_cells(fields, numbers, bound, tables)?;
    write(writer, fields)
}

// Writes a record behind what was written.
fn write(writer: &mut Writer<Vec<u8>>, fields: &ByteRecord) -> Result<(), Memory>
    ensures { WritesMore result writer.old writer.new
        (row_text default_writer (fields_of fields.now)) }
{
    match writer.write_byte_record(fields) {
        Ok(()) => Ok(()),
        Err(_) => Err(Memory),
    }
}

fn put_titles(fields: &mut ByteRecord, columns: &[OutColumn]) -> Result<(), Memory>
    ensures { OnOk result (fields_of fields.new ≡ titles columns.now) }
{
    fields.clear();
    for column in columns {
        fields.push_field(column.title.bytes())?;
    }
    Ok(())
}

fn put_cells(
    fields: &mut ByteRecord,
    numbers: &[u32],
    bound: &Bound,
    tables: &[Table],
) -> Result<(), Memory>
    requires tables { AreTables bound.now.query tables.now }
    requires numbers { AreRowNumbers bound.now.query tables.now numbers.now }
    ensures { OnOk result (fields_of fields.new
        ≡ cells bound.now.query tables.now bound.now.query.output numbers.now) }
{
    fields.clear();
    let columns = bound.output();
    for column in columns {
        put_cell(fields, cell_at(bound, tables, numbers, column.source))?;
    }
    Ok(())
}

// The number's text is written to a buffer on the stack.
fn put_cell(fields: &mut ByteRecord, cell: Cell<'_>) -> Result<(), Memory>
    ensures field { OnOk result (PutsField fields.old fields.new
        (field_text (value_of cell.entry))) }
    ensures between { OnOk result (partial_of fields.new ≡ []) }
{
    let mut buffer = Buffer::new();
    let field = match cell {
        Cell::Int(number) => buffer.format(number).as_bytes(),
        Cell::Text(text) => text,
    };
    fields.push_field(field)?;
    Ok(())
}
