// What the definitions of fields and of written texts say of one another.
ghost use Rattle.std.specs.Prelude.{◌≡◌, IsTrue, Some};
ghost use Rattle.rpt_base.specs.declared.values.ColumnType.{ColumnType as Kind};
ghost use Rattle.rpt_base.specs.declared.values.Value.{Value as Held};
ghost use Rattle.column_table.specs.FieldText.{CanBeHeld, field_text, field_value};
ghost use Rattle.column_table.specs.Table.{has_type};

/// The theorem that what is written is read again; the call does nothing. The text of a value that a table can hold is a field
/// that has this value, in a column of its type.
pub fn texts_are_read()
    ensures { (kind : Kind) (v : Held) → IsTrue (has_type kind v) → CanBeHeld v
        → field_value kind (field_text v) ≡ Some v }
{}
