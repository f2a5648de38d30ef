// What is wrong with the created tables and the sources.
ghost use Rattle.std.specs.Prelude.{◌≡◌, ◌==◌, ◌||◌, []};
ghost use Rattle.script_rules.specs.Violations.{column_violations, each_behind, first_of, source_violations, table_violations};
ghost use Rattle.script_rules.specs.Violations.{has_column, has_relation, has_table, is_file_name};

use crate::found::{Violation, note_if};
use crate::kinds::BindKind;
use crate::sources::{is_same, name_of, name_place};
use rpt_base::Name;
use rpt_base::limits::{MAX_COLUMNS, MAX_RELATIONS};
use sql_text::{ColumnItem, CreateTable, Source};

// The first refusal of the created tables.
pub(crate) fn in_tables(tables: &[CreateTable]) -> Option<Violation>
    ensures { result ≡ first_of None (each_behind table_violations [] tables.now) }
{
    let mut found = None;
    for (number, table) in tables.iter().enumerate() {
        found = in_table(&tables[..number], table, found);
    }
    found
}

// The first of what was found and the refusals of a table behind these.
fn in_table(
    before: &[CreateTable],
    table: &CreateTable,
    found: Option<Violation>,
) -> Option<Violation>
    ensures { result ≡ first_of found (table_violations before.now table.now) }
{
    let name = &table.name;
    let found = note_if(found, !is_file_name(name), table.at, BindKind::BadTableName);
    let found = note_if(
        found,
        has_table(before, name),
        table.at,
        BindKind::DuplicateTable,
    );
    in_columns(table.columns.as_slice(), found)
}

fn in_columns(columns: &[ColumnItem], found: Option<Violation>) -> Option<Violation>
    ensures { result ≡ first_of found (each_behind column_violations [] columns.now) }
{
    let mut found = found;
    for (number, column) in columns.iter().enumerate() {
        found = in_column(&columns[..number], column, found);
    }
    found
}

fn in_column(
    before: &[ColumnItem],
    column: &ColumnItem,
    found: Option<Violation>,
) -> Option<Violation>
    ensures { result ≡ first_of found (column_violations before.now column.now) }
{
    let is_past = before.len() == MAX_COLUMNS as usize;
    let found = note_if(found, is_past, column.at, BindKind::TooManyColumns);
    let is_double = has_column(before, &column.name);
    note_if(found, is_double, column.at, BindKind::DuplicateColumn)
}

// The first refusal of the sources.
pub(crate) fn in_sources(tables: &[CreateTable], sources: &[Source]) -> Option<Violation>
    ensures { result ≡ first_of None (each_behind (source_violations tables.now) [] sources.now) }
{
    let mut found = None;
    for (number, source) in sources.iter().enumerate() {
        found = in_source(tables, &sources[..number], source, found);
    }
    found
}

fn in_source(
    tables: &[CreateTable],
    before: &[Source],
    source: &Source,
    found: Option<Violation>,
) -> Option<Violation>
    ensures { result ≡ first_of found (source_violations tables.now before.now source.now) }
{
    let is_unknown = !has_table(tables, &source.table);
    let found = note_if(found, is_unknown, source.at, BindKind::UnknownTable);
    let is_double = has_relation(before, name_of(source));
    let found = note_if(
        found,
        is_double,
        name_place(source),
        BindKind::DuplicateAlias,
    );
    let is_past = before.len() == MAX_RELATIONS as usize;
    note_if(found, is_past, source.at, BindKind::TooManyRelations)
}

// Whether a name is fit for a file's: it has only ASCII letters, digits, `_` and `-`.
fn is_file_name(name: &Name) -> bool
    ensures { result ≡ is_file_name name.now }
{
    name.bytes().iter().all(|b| b.is_ascii_alphabetic()
        || b.is_ascii_digit()
        || *b == b'_'
        || *b == b'-')
}

fn has_table(tables: &[CreateTable], name: &Name) -> bool
    ensures { result ≡ has_table tables.now name.now }
{
    tables.iter().any(|table| is_same(&table.name, name))
}

fn has_column(columns: &[ColumnItem], name: &Name) -> bool
    ensures { result ≡ has_column columns.now name.now }
{
    columns.iter().any(|column| is_same(&column.name, name))
}

// Whether a source goes by this name.
fn has_relation(sources: &[Source], name: &Name) -> bool
    ensures { result ≡ has_relation sources.now name.now }
{
    sources.iter().any(|source| is_same(name_of(source), name))
}
