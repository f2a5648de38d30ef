// Tables, made row by row.
ghost use Rattle.std.specs.Prelude.{◌≡◌, ◌<◌, ◌≤◌, [], IfOk, OnOk, OnErr};
ghost use Rattle.std.specs.Prelude.{IsTrue, IsSomeAnd, Some, length, slice_get};
ghost use Rattle.std.specs.List.{list_all};
ghost use Rattle.rpt_base.specs.declared.limits.TheConstants.{MAX_ROWS};
ghost use Rattle.rpt_base.specs.declared.values.ColumnType.TheVariants as kind;
ghost use Rattle.rpt_base.specs.declared.values.Value.TheVariants as value;
ghost use Rattle.column_table.specs.Table.{IsUtf8Cell, has_type, has_types, value_there, value_of};
ghost use Rattle.column_table.specs.Table.{ended_rows, next_kind, with_row_ended, with_value};

use crate::column::Column;
use crate::table::Table;
use rpt_base::{Cell, ColumnType, Memory, Value};
use std::alloc::Global;
use std::marker::Model;

/// A table whose next row is being filled, value by value. Contracts see it as the types of the columns, the rows, and the
/// values of the row that has begun.
#[derive(Drop)]
pub struct TableBuilder {
    // Each has a value for each row. What it has past them, and isn't filled, is left from a row that was given up.
    columns: Vec<Column>,
    rows: u32,
    // How many columns have a value for the row that has begun.
    filled: usize,
}

impl Model for TableBuilder {
    ghost use Rattle.column_table.specs.Table.{OpenTable};
    ghost use Rattle.column_table.specs.Columns.{IsOpenTable, open_table_of};

    ghost Value = { OpenTable };

    ghost view = { λ c. open_table_of c.columns.items c.rows c.filled };

    ghost invariant = { λ c. IsOpenTable c.columns.items c.rows c.filled };
}

impl TableBuilder {
    /// A table without rows, whose columns have these types.
    pub fn new(alloc: Global, kinds: &[ColumnType]) -> Result<TableBuilder, Memory>
        requires { length kinds.now ≤ 4294967294 }
        ensures { IfOk result (λ b. b ≡ record { kinds = kinds.now; rows = []; started = [] }) }
    {
        let mut columns = Vec::with_capacity(alloc, kinds.len())?;
        for kind in kinds {
            columns.push(Column::new(alloc, *kind))?;
        }
        Ok(TableBuilder {
            columns,
            rows: 0,
            filled: 0,
        })
    }

    /// Gives up the row that has begun.
    pub(crate) fn restart(&mut self)
        ensures { self.new ≡ record self.old { started = [] } }
    {
        self.filled = 0;
    }

    /// Puts a number into the next column of the started row. Refused, nothing is changed.
    pub fn put_int(&mut self, number: i64) -> Result<(), Memory>
        requires { next_kind self.old ≡ Some kind.Int }
        ensures ok { OnOk result (self.new ≡ with_value self.old (value.Int number)) }
        ensures err { OnErr result (self.new ≡ self.old) }
    {
        let row = self.rows as usize;
        let column = &mut self.columns[self.filled];
        column.put_int(row, number)?;
        self.filled += 1;
        Ok(())
    }

    /// Puts a text into the next column of the started row. Refused, nothing is changed.
    pub fn put_text(&mut self, text: &str) -> Result<(), Memory>
        requires { next_kind self.old ≡ Some kind.Text }
        ensures ok { OnOk result (self.new ≡ with_value self.old (value.Text text.now)) }
        ensures err { OnErr result (self.new ≡ self.old) }
    {
        let row = self.rows as usize;
        let column = &mut self.columns[self.filled];
        column.put_text(row, text)?;
        self.filled += 1;
        Ok(())
    }

    /// Puts a value into the next column of the started row. Refused, nothing is changed.
    pub(crate) fn put(&mut self, value: &Value) -> Result<(), Memory>
        requires { IsSomeAnd (next_kind self.old) (λ k. IsTrue (has_type k value.now)) }
        ensures ok { OnOk result (self.new ≡ with_value self.old value.now) }
        ensures err { OnErr result (self.new ≡ self.old) }
    {
        match value {
            Value::Int(number) => self.put_int(*number),
            Value::Text(text) => self.put_text(text.as_str()),
        }
    }

    /// Ends the started row, which becomes the table's last.
    pub fn end_row(&mut self)
        requires full { length self.old.started ≡ length self.old.kinds }
        requires room { length self.old.rows < MAX_ROWS }
        ensures { self.new ≡ with_row_ended self.old }
    {
        self.rows += 1;
        self.filled = 0;
    }

    /// The table. A row that has only begun is given up.
    pub fn finish(self) -> Table
        ensures { result ≡ ended_rows self }
    {
        Table { builder: self }
    }

    /// The value in a row and a column, each numbered from 0.
    pub(crate) fn cell(&self, row: u32, column: u32) -> Cell<'_>
        requires row { row < length self.now.rows }
        requires column { column < length self.now.kinds }
        ensures value { value_there (ended_rows self.now) row column ≡ Some (value_of result) }
        ensures utf8 { IsUtf8Cell result }
    {
        self.columns[column as usize].cell(row as usize)
    }

    /// The number of rows.
    pub(crate) fn rows(&self) -> u32
        ensures count { result ≡ length self.now.rows }
        ensures limit { length self.now.rows ≤ MAX_ROWS }
        ensures typed { IsTrue (list_all (has_types self.now.kinds) self.now.rows) }
    {
        self.rows
    }

    /// The number of columns.
    pub(crate) fn columns(&self) -> u32
        ensures { result ≡ length self.now.kinds }
    {
        self.columns.len() as u32
    }

    /// The type of a column, numbered from 0.
    pub(crate) fn kind(&self, column: u32) -> ColumnType
        requires { column < length self.now.kinds }
        ensures { slice_get self.now.kinds column ≡ Some result }
    {
        self.columns[column as usize].kind()
    }
}
