// Tables.
ghost use Rattle.std.specs.Prelude.{◌≡◌, ◌<◌, ◌≤◌, ◌++◌, ◌∷◌, [], IfOk, OnOk};
ghost use Rattle.std.specs.Prelude.{OnErr, IsTrue, Some, length, slice_get};
ghost use Rattle.std.specs.List.{list_all};
ghost use Rattle.rpt_base.specs.declared.limits.TheConstants.{MAX_ROWS};
ghost use Rattle.column_table.specs.Table.{IsUtf8Cell, has_types, value_there, value_of};

use crate::builder::TableBuilder;
use rpt_base::{Cell, ColumnType, Memory, Value};
use std::alloc::Global;
use std::marker::Model;

/// A table with typed columns. Contracts see it as the types of its columns and the list of its rows.
#[derive(Drop)]
pub struct Table {
    // A row that was refused may have begun in it.
    pub(crate) builder: TableBuilder,
}

impl Model for Table {
    ghost use Rattle.column_table.specs.Table.{Rows, ended_rows};

    ghost Value = { Rows };

    ghost view = { λ t. ended_rows t.builder };
}

impl Table {
    /// A table without rows, whose columns have these types.
    pub fn new(alloc: Global, kinds: &[ColumnType]) -> Result<Table, Memory>
        requires { length kinds.now ≤ 4294967294 }
        ensures { IfOk result (λ t. t ≡ record { kinds = kinds.now; rows = [] }) }
    {
        Ok(Table {
            builder: TableBuilder::new(alloc, kinds)?,
        })
    }

    /// Puts a row at the end, a value for each column in order. Refused, the table is as it was.
    pub fn push_row(&mut self, row: &[Value]) -> Result<(), Memory>
        requires types { IsTrue (has_types self.old.kinds row.now) }
        requires room { length self.old.rows < MAX_ROWS }
        ensures ok { OnOk result (self.new
            ≡ record self.old { rows = self.old.rows ++ row.now ∷ [] }) }
        ensures err { OnErr result (self.new ≡ self.old) }
    {
        self.builder.restart();
        for value in row {
            self.builder.put(value)?;
        }
        self.builder.end_row();
        Ok(())
    }

    /// The value in a row and a column, each numbered from 0. A text is the table's own.
    pub fn cell(&self, row: u32, column: u32) -> Cell<'_>
        requires row { row < length self.now.rows }
        requires column { column < length self.now.kinds }
        ensures value { value_there self.now row column ≡ Some (value_of result) }
        ensures utf8 { IsUtf8Cell result }
    {
        self.builder.cell(row, column)
    }

    /// The number of rows. There are at most `MAX_ROWS`, and each has a value of the right type in each column.
    pub fn rows(&self) -> u32
        ensures count { result ≡ length self.now.rows }
        ensures limit { length self.now.rows ≤ MAX_ROWS }
        ensures typed { IsTrue (list_all (has_types self.now.kinds) self.now.rows) }
    {
        self.builder.rows()
    }

    /// The number of columns.
    pub fn columns(&self) -> u32
        ensures { result ≡ length self.now.kinds }
    {
        self.builder.columns()
    }

    /// The type of a column, numbered from 0.
    pub fn kind(&self, column: u32) -> ColumnType
        requires { column < length self.now.kinds }
        ensures { slice_get self.now.kinds column ≡ Some result }
    {
        self.builder.kind(column)
    }
}
