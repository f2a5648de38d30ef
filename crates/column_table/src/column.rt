// One column.
ghost use Rattle.std.specs.Prelude.{◌≡◌, ◌<◌, ◌≤◌, [], OnOk, OnErr, Some, length, slice_get};
ghost use Rattle.rpt_base.specs.declared.values.ColumnType.TheVariants as kind;
ghost use Rattle.rpt_base.specs.declared.values.Value.TheVariants as value;
ghost use Rattle.column_table.specs.Table.{IsUtf8Cell, value_of};
ghost use Rattle.column_table.specs.Columns.{cut, put};

use crate::texts::TextColumn;
use rpt_base::{Cell, ColumnType, Memory};
use std::alloc::Global;
use std::marker::Model;

/// A column. Contracts see it as its type and its values.
#[derive(Drop)]
pub(crate) struct Column {
    content: Content,
}

#[derive(Drop)]
enum Content {
    Numbers(Vec<i64>),
    Texts(TextColumn),
}

impl Model for Column {
    ghost use Rattle.column_table.specs.Columns.{OneColumn};

    ghost Value = { OneColumn };

    ghost use Rattle.column_table.specs.Contents.{column_of};

    ghost view = { λ c. column_of c.content };
}

impl Column {
    /// A column of this type without values.
    pub(crate) fn new(alloc: Global, kind: ColumnType) -> Column
        ensures { result ≡ record { kind = kind; values = [] } }
    {
        let content = match kind {
            ColumnType::Int => Content::Numbers(Vec::new(alloc)),
            ColumnType::Text => Content::Texts(TextColumn::new(alloc)),
        };
        Column { content }
    }

    /// The type.
    pub(crate) fn kind(&self) -> ColumnType
        ensures { result ≡ self.now.kind }
    {
        match &self.content {
            Content::Numbers(_) => ColumnType::Int,
            Content::Texts(_) => ColumnType::Text,
        }
    }

    /// Puts a number after the first `at` values, in the place of the others. Refused, the first `at` are left.
    pub(crate) fn put_int(&mut self, at: usize, number: i64) -> Result<(), Memory>
        requires kind { self.old.kind ≡ kind.Int }
        requires room { at ≤ length self.old.values }
        ensures ok { OnOk result (self.new ≡ put self.old at (value.Int number)) }
        ensures err { OnErr result (self.new ≡ cut self.old at) }
    {
        match &mut self.content {
            Content::Numbers(numbers) => {
                numbers.truncate(at);
                numbers.push(number)?;
                Ok(())
            }
            Content::Texts(_) => unreachable!(),
        }
    }

    /// Puts a text after the first `at` values, in the place of the others. Refused, the first `at` are left.
    pub(crate) fn put_text(&mut self, at: usize, text: &str) -> Result<(), Memory>
        requires kind { self.old.kind ≡ kind.Text }
        requires room { at ≤ length self.old.values }
        ensures ok { OnOk result (self.new ≡ put self.old at (value.Text text.now)) }
        ensures err { OnErr result (self.new ≡ cut self.old at) }
    {
        match &mut self.content {
            Content::Numbers(_) => unreachable!(),
            Content::Texts(texts) => texts.put(at, text),
        }
    }

    /// The value in a row.
    pub(crate) fn cell(&self, row: usize) -> Cell<'_>
        requires { row < length self.now.values }
        ensures value { slice_get self.now.values row ≡ Some (value_of result) }
        ensures utf8 { IsUtf8Cell result }
    {
        match &self.content {
            Content::Numbers(numbers) => Cell::Int(numbers[row]),
            Content::Texts(texts) => Cell::Text(texts.text(row)),
        }
    }
}
