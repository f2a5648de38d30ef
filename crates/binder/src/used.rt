// The tables that the sources use, and the names that they go by.
ghost use Rattle.std.specs.Prelude.{◌≡◌, ◌<◌, ◌≤◌, IfOk, IfSome, OnOk, length, map, position};
ghost use Rattle.std.specs.Str.{bytes_eq};
ghost use Rattle.rpt_base.specs.declared.limits.TheConstants.{MAX_RELATIONS};
ghost use Rattle.script_rules.specs.Scope.{name_of};
ghost use Rattle.binder.specs.Binding.{decl_of, declaration, is_declared, table_number, tables_of, with_table};

use column_table::{ColumnDecl, Decl};
use rpt_base::{Listed, Memory, Name};
use script_rules::{columns_of, is_same, name_of};
use sql_text::{ColumnItem, CreateTable, Script, Source};
use std::alloc::Global;

/// The different tables of the sources by first use.
pub(crate) fn tables_of(alloc: Global, script: &Script) -> Result<Listed<Decl>, Memory>
    ensures { IfOk result (λ tables. tables ≡ tables_of script.now) }
{
    let mut used = Vec::new(alloc);
    for source in script.select.sources.as_slice() {
        add_table(alloc, script.tables.as_slice(), source, &mut used)?;
    }
    Ok(Listed::from_vec(used))
}

// Puts a source's table behind those that were used, where it wasn't.
fn add_table(
    alloc: Global,
    created: &[CreateTable],
    source: &Source,
    used: &mut Vec<Decl>,
) -> Result<(), Memory>
    ensures { OnOk result (used.new.items ≡ with_table created.now used.old.items source.now) }
{
    if is_declared(used.as_slice(), &source.table) {
        return Ok(());
    }
    used.push(decl_of(alloc, created, source)?)?;
    Ok(())
}

// Whether one of the tables has this name.
fn is_declared(tables: &[Decl], name: &Name) -> bool
    ensures { result ≡ is_declared tables.now name.now }
{
    tables.iter().any(|table| is_same(&table.name, name))
}

// The declared table of a source.
fn decl_of(alloc: Global, created: &[CreateTable], source: &Source) -> Result<Decl, Memory>
    ensures { IfOk result (λ decl. decl ≡ decl_of created.now source.now) }
{
    Ok(Decl {
        name: source.table.copy(alloc)?,
        columns: declarations(alloc, columns_of(created, source))?,
    })
}

fn declarations(alloc: Global, columns: &[ColumnItem]) -> Result<Listed<ColumnDecl>, Memory>
    ensures { IfOk result (λ declared. declared ≡ map declaration columns.now) }
{
    let mut declared = Vec::new(alloc);
    for column in columns {
        declared.push(declaration(alloc, column)?)?;
    }
    Ok(Listed::from_vec(declared))
}

fn declaration(alloc: Global, column: &ColumnItem) -> Result<ColumnDecl, Memory>
    ensures { IfOk result (λ declared. declared ≡ declaration column.now) }
{
    Ok(ColumnDecl {
        name: column.name.copy(alloc)?,
        kind: column.kind,
    })
}

/// The number of each source's table.
pub(crate) fn table_numbers(
    alloc: Global,
    script: &Script,
    tables: &[Decl],
) -> Result<Vec<u32>, Memory>
    requires few { length tables.now ≤ MAX_RELATIONS }
    ensures { IfOk result (λ numbers. numbers.items
        ≡ map (table_number tables.now) script.now.select.sources) }
{
    let mut numbers = Vec::new(alloc);
    for source in script.select.sources.as_slice() {
        numbers.push(table_number(tables, source))?;
    }
    Ok(numbers)
}

// The number of a source's table, or else the number of tables.
fn table_number(tables: &[Decl], source: &Source) -> u32
    requires few { length tables.now ≤ MAX_RELATIONS }
    ensures { result ≡ table_number tables.now source.now }
{
    match index_of(tables, &source.table) {
        Some(number) => number as u32,
        None => tables.len() as u32,
    }
}

// The number of the table of this name.
fn index_of(tables: &[Decl], name: &Name) -> Option<usize>
    ensures number { result ≡ position (λ t. bytes_eq t.name name.now) tables.now }
    ensures within { IfSome result (λ number. number < length tables.now) }
{
    tables.iter().position(|table| is_same(&table.name, name))
}

/// The name that each source goes by.
pub(crate) fn aliases(alloc: Global, script: &Script) -> Result<Listed<Name>, Memory>
    ensures { IfOk result (λ names. names ≡ map name_of script.now.select.sources) }
{
    let mut names = Vec::new(alloc);
    for source in script.select.sources.as_slice() {
        names.push(name_of(source).copy(alloc)?)?;
    }
    Ok(Listed::from_vec(names))
}
