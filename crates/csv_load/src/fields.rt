// The values of fields.
ghost use Rattle.std.specs.Prelude.{◌≡◌, ◌<◌, IfOk, IsTrue, Some, length, slice_get};
ghost use Rattle.std.specs.Option.{SomeIff};
ghost use Rattle.std.specs.Str.Parse.{signed_digits_value};
ghost use Rattle.csv_load.specs.FileTable.{fault_of};
ghost use Rattle.column_table.specs.FieldText.{field_value, is_int};
ghost use Rattle.csv_load.specs.Loads.{PutsField};

use crate::errors::LoadError;
use column_table::TableBuilder;
use rpt_base::{ColumnType, Memory};
use std::str;

/// Puts the value of a field into the next column, which has this type. False where the field has none there.
pub(crate) fn put_field(
    builder: &mut TableBuilder,
    kind: ColumnType,
    field: &[u8],
) -> Result<bool, Memory>
    requires { slice_get builder.old.kinds (length builder.old.started) ≡ Some kind }
    ensures { IfOk result (λ good. PutsField (field_value kind field.now)
        builder.old builder.new good) }
{
    match kind {
        ColumnType::Int => match int_of(field) {
            Some(number) => {
                builder.put_int(number)?;
                Ok(true)
            }
            None => Ok(false),
        },
        ColumnType::Text => match str::from_utf8(field) {
            Ok(text) => {
                builder.put_text(text)?;
                Ok(true)
            }
            Err(_) => Ok(false),
        },
    }
}

/// The refusal of a field that has no value in a column of this type.
pub(crate) fn fault(kind: ColumnType, row: u32, column: u32) -> LoadError
    ensures { result ≡ fault_of kind row column }
{
    match kind {
        ColumnType::Int => LoadError::BadField { row, column },
        ColumnType::Text => LoadError::NotUtf8 { row, column },
    }
}

// The number that a field writes: a sign or none, and then digits.
fn int_of(field: &[u8]) -> Option<i64>
    ensures { SomeIff result (IsTrue (is_int field.now)) (signed_digits_value 10 field.now) }
{
    match str::from_utf8(field) {
        Ok(text) => match text.parse::<i64>() {
            Ok(number) => Some(number),
            Err(_) => None,
        },
        Err(_) => None,
    }
}
