// The records of a file, read one by one.
ghost use Rattle.std.specs.Prelude.{◌≡◌, [], IfErr, IfOk, slice_index_or, true};
ghost use Rattle.csv.specs.Reading.{error_kind, stops_reader};
ghost use Rattle.csv.specs.Records.{fields_of};
ghost use Rattle.csv_load.specs.FileTable.{file_records};
ghost use Rattle.csv_load.specs.Left.{TakesRecord};

use csv::{ByteRecord, Error, Reader, ReaderBuilder};
use std::alloc::Global;
use std::marker::Model;

/// A reader of the records of a file, which contracts see as the list of the records that are still to come.
///
/// A record may have any number of fields: whether it fits the header is for the caller to say.
#[derive(Drop)]
pub(crate) struct RecordReader<'a> {
    reader: Reader<&'a [u8]>,
    // csv's contract says nothing of a reader that has come to its end, so it isn't asked again.
    done: bool,
}

impl<'a> Model for RecordReader<'a> {
    ghost use Rattle.std.specs.Prelude.{ℕ, List};
    ghost use Rattle.csv_load.specs.Left.{IsReading, left_of};

    ghost Value = { List (List (List ℕ)) };

    ghost view = { λ r. left_of r.done r.reader };

    ghost invariant = { λ r. IsReading r.done r.reader };
}

impl<'a> RecordReader<'a> {
    /// A reader of all records of a file, the header first.
    pub(crate) fn new(alloc: Global, bytes: &'a [u8]) -> RecordReader<'a>
        ensures { result ≡ file_records bytes.now }
    {
        let reader = ReaderBuilder::new()
            .has_headers(false)
            .flexible(true)
            .from_reader(alloc, bytes);
        RecordReader {
            reader,
            done: false,
        }
    }

    /// Puts the next record's fields into `fields`, and says whether there was one.
    ///
    /// An error is a fault of reading, which a slice doesn't have, or want of memory; no record is refused for what it holds.
    pub(crate) fn next_into(&mut self, fields: &mut ByteRecord) -> Result<bool, Error>
        ensures reads { IfOk result (TakesRecord self.old (fields_of fields.new) self.new) }
        ensures stops { IfErr result (λ e. stops_reader (error_kind e) ≡ true) }
    {
        if self.done {
            return Ok(false);
        }
        let found = match self.reader.read_byte_record(fields) {
            Ok(found) => found,
            Err(e) => {
                self.done = true;
                return Err(e);
            }
        };
        self.done = !found;
        Ok(found)
    }
}

/// The field at a place of a record; no bytes where the record is shorter.
pub(crate) fn field_at<'r>(fields: &'r ByteRecord, place: usize) -> &'r [u8]
    ensures { result.now ≡ slice_index_or (fields_of fields.now) place [] }
{
    match fields.get(place) {
        Some(field) => field,
        None => &[],
    }
}
