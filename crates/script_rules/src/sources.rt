// The tables that sources name, and the names that sources go by.
ghost use Rattle.std.specs.Prelude.{◌≡◌};
ghost use Rattle.std.specs.Option.{option_copied};
ghost use Rattle.std.specs.Str.{bytes_eq};
ghost use Rattle.script_rules.specs.Scope.{columns_of, name_of, name_place, table_named};

use rpt_base::Name;
use sql_text::{ColumnItem, CreateTable, Source};

/// Whether both are one name.
pub fn is_same(name: &Name, other: &Name) -> bool
    ensures { result ≡ bytes_eq name.now other.now }
{
    name.bytes() == other.bytes()
}

/// The name that a source goes by: its alias, or else its table's name.
pub fn name_of(source: &Source) -> &Name
    ensures { result.now ≡ name_of source.now }
{
    match &source.alias {
        Some(alias) => &alias.name,
        None => &source.table,
    }
}

// Where that name stands.
pub(crate) fn name_place(source: &Source) -> u32
    ensures { result ≡ name_place source.now }
{
    match &source.alias {
        Some(alias) => alias.at,
        None => source.at,
    }
}

// The created table of this name.
fn table_named<'a>(tables: &'a [CreateTable], name: &Name) -> Option<&'a CreateTable>
    ensures { option_copied result ≡ table_named tables.now name.now }
{
    tables.iter().find(|table| is_same(&table.name, name))
}

/// The columns of a source's table; none where it isn't created.
pub fn columns_of<'a>(tables: &'a [CreateTable], source: &Source) -> &'a [ColumnItem]
    ensures { result.now ≡ columns_of tables.now source.now }
{
    match table_named(tables, &source.table) {
        Some(table) => table.columns.as_slice(),
        None => &[],
    }
}
