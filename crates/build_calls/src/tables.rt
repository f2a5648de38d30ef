// Tables of three rows, a number and a text each.
ghost use Rattle.std.specs.Prelude.{◌≡◌, ◌+◌, ◌<◌, ◌∷◌, [], All, IfOk, OnOk, length};
ghost use Rattle.rpt_base.specs.declared.limits.TheConstants.{MAX_ROWS};
ghost use Rattle.rpt_base.specs.declared.values.ColumnType.TheVariants as kind;

use case_tables::int_of;
use case_text::{CaseError, Entry};
use column_table::Table;
use rpt_base::{ColumnType, Str, Value};
use std::alloc::Global;

/// The tables of some lines.
pub fn tables_of(alloc: Global, entries: &[Entry]) -> Result<Vec<Table>, CaseError>
    ensures count { IfOk result (λ ts. length ts.items ≡ length entries.now) }
    ensures kinds { IfOk result (λ ts. All (λ t. t.kinds ≡ kind.Int ∷ kind.Text ∷ []) ts.items) }
    ensures rows { IfOk result (λ ts. All (λ t. length t.rows ≡ 3) ts.items) }
{
    let mut tables = Vec::new(alloc);
    for entry in entries {
        tables.push(table_of(alloc, entry)?)?;
    }
    Ok(tables)
}

fn table_of(alloc: Global, entry: &Entry) -> Result<Table, CaseError>
    ensures kinds { IfOk result (λ t. t.kinds ≡ kind.Int ∷ kind.Text ∷ []) }
    ensures rows { IfOk result (λ t. length t.rows ≡ 3) }
{
    let mut words = entry.rest.as_str().split_whitespace();
    let mut table = Table::new(alloc, &[ColumnType::Int, ColumnType::Text])?;
    push_row(alloc, &mut table, words.next(), words.next())?;
    push_row(alloc, &mut table, words.next(), words.next())?;
    push_row(alloc, &mut table, words.next(), words.next())?;
    Ok(table)
}

fn push_row(
    alloc: Global,
    table: &mut Table,
    number: Option<&str>,
    text: Option<&str>,
) -> Result<(), CaseError>
    requires kinds { table.old.kinds ≡ kind.Int ∷ kind.Text ∷ [] }
    requires room { length table.old.rows < MAX_ROWS }
    ensures kinds { OnOk result (table.new.kinds ≡ kind.Int ∷ kind.Text ∷ []) }
    ensures rows { OnOk result (length table.new.rows ≡ length table.old.rows + 1) }
{
    let Some(number) = number else {
        return Err(CaseError::Word);
    };
    let number = int_of(number)?;
    let Some(text) = text else {
        return Err(CaseError::Word);
    };
    let text = Str::from_text(alloc, text)?;
    table.push_row(&[Value::Int(number), Value::Text(text)])?;
    Ok(())
}
