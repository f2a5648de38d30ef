// The rows of records, once it is known where the declared columns stand in the header.
ghost use Rattle.std.specs.Prelude.{◌≡◌, ◌==◌, ◌≤◌, [], IfOk, OnOk, length};
ghost use Rattle.rpt_base.specs.declared.limits.TheConstants.{MAX_COLUMNS};
ghost use Rattle.csv.specs.Records.{fields_of};
ghost use Rattle.csv_load.specs.FileTable.{is_named, place_in, places_of as places_said};
ghost use Rattle.column_table.specs.Table.{types_of};
ghost use Rattle.csv_load.specs.Layouts.{cells_in};
ghost use Rattle.csv_load.specs.Loads.{Refuses};

use crate::errors::LoadError;
use crate::fields::{fault, put_field};
use crate::records::field_at;
use column_table::{ColumnDecl, TableBuilder};
use csv::ByteRecord;
use rpt_base::Name;
use std::alloc::Global;
use std::marker::Model;

/// The declared columns, and a header in which each of them stands exactly once. Contracts see it as those two.
#[derive(Drop)]
pub(crate) struct RowLayout<'a> {
    columns: &'a [ColumnDecl],
    header: ByteRecord,
    // The column's number gives its place in the header, from 0.
    places: Vec<usize>,
}

impl<'a> Model for RowLayout<'a> {
    ghost use Rattle.csv.specs.Records.{fields_of};
    ghost use Rattle.csv_load.specs.Layouts.{FileLayout, IsLayout, layout_of};

    ghost Value = { FileLayout };

    ghost view = { λ l. layout_of l.columns.now (fields_of l.header) l.places.items };

    ghost invariant = { λ l. IsLayout l.columns.now (fields_of l.header) l.places.items };
}

impl<'a> RowLayout<'a> {
    /// The layout of a file with this header, or the refusal of the first declared column that doesn't stand exactly once
    /// in it.
    pub(crate) fn find(
        alloc: Global,
        columns: &'a [ColumnDecl],
        header: ByteRecord,
    ) -> Result<RowLayout<'a>, LoadError>
        requires { length columns.now ≤ MAX_COLUMNS }
        ensures places { IfOk result (λ layout.
            places_said columns.now (fields_of header) ≡ Ok layout.places) }
        ensures columns { IfOk result (λ layout. layout.columns ≡ columns.now) }
        ensures header { IfOk result (λ layout. layout.header ≡ fields_of header) }
        ensures refused { Refuses (places_said columns.now (fields_of header)) result }
    {
        let places = places_of(alloc, columns, &header)?;
        Ok(RowLayout {
            columns,
            header,
            places,
        })
    }

    /// Puts the values of a record in the declared columns into the started row, which has none yet. The refusal is that of
    /// the record of this row.
    pub(crate) fn fill(
        &self,
        row: u32,
        fields: &ByteRecord,
        builder: &mut TableBuilder,
    ) -> Result<(), LoadError>
        requires kinds { builder.old.kinds ≡ types_of self.now.columns }
        requires none_yet { builder.old.started ≡ [] }
        ensures cells { OnOk result (cells_in self.now row (fields_of fields.now)
            ≡ Ok builder.new.started) }
        ensures others { OnOk result (builder.new
            ≡ record builder.old { started = builder.new.started }) }
        ensures refused { Refuses (cells_in self.now row (fields_of fields.now)) result }
    {
        if !is_as_long(fields, &self.header) {
            return Err(LoadError::Ragged { row });
        }
        'columns: for column in 0..self.columns.len() {
            let kind = self.columns[column].kind;
            let field = field_at(fields, self.places[column]);
            if !put_field(builder, kind, field)? {
                return Err(fault(kind, row, column as u32));
            }
        }
        Ok(())
    }
}

fn is_as_long(fields: &ByteRecord, header: &ByteRecord) -> bool
    ensures { result ≡ (length (fields_of fields.now) == length (fields_of header.now)) }
{
    fields.len() == header.len()
}

// The place of each declared column in a header, from 0, or the refusal of the first that doesn't stand there exactly once.
fn places_of(
    alloc: Global,
    columns: &[ColumnDecl],
    header: &ByteRecord,
) -> Result<Vec<usize>, LoadError>
    requires { length columns.now ≤ MAX_COLUMNS }
    ensures places { IfOk result (λ places.
        places_said columns.now (fields_of header.now) ≡ Ok places.items) }
    ensures refused { Refuses (places_said columns.now (fields_of header.now)) result }
{
    let mut places = Vec::with_capacity(alloc, columns.len())?;
    'columns: for column in 0..columns.len() {
        let Some(place) = place_of(header, &columns[column].name) else {
            return Err(LoadError::Header {
                column: column as u32,
            });
        };
        places.push(place)?;
    }
    Ok(places)
}

// The place of the one field with this name.
fn place_of(header: &ByteRecord, name: &Name) -> Option<usize>
    ensures { result ≡ place_in (fields_of header.now) name.now }
{
    let mut place = None;
    'fields: for i in 0..header.len() {
        if has_name(field_at(header, i), name) {
            if place.is_some() {
                return None;
            }
            place = Some(i);
        }
    }
    place
}

// Whether a field is this name, whatever the case of its ASCII letters.
fn has_name(field: &[u8], name: &Name) -> bool
    ensures { result ≡ is_named name.now field.now }
{
    field.eq_ignore_ascii_case(name.bytes())
}
