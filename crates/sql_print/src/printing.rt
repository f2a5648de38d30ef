// Printed scripts.
ghost use Rattle.std.specs.Prelude.{◌≡◌, ◌≤◌, ◌∷◌, ℕ, List, OnOk, IfOk};
ghost use Rattle.rpt_base.specs.declared.limits.TheConstants.{MAX_LEVELS};
ghost use Rattle.sql_lex.specs.declared.tokens.Token.{Token};
ghost use Rattle.sql_grammar.specs.declared.tree.Script.{Script as Tree};
ghost use Rattle.sql_grammar.specs.Formed.{IsWellFormed};
ghost use Rattle.sql_grammar.specs.Sentence.{IsSentence};
ghost use Rattle.sql_print.specs.Pieces.{word};
ghost use Rattle.sql_print.specs.Printed.{title_pieces, item_pieces, items_pieces, alias_pieces};
ghost use Rattle.sql_print.specs.Printed.{factor_pieces, next_source, next_sources, sources_pieces};
ghost use Rattle.sql_print.specs.Printed.{filter_pieces, select_pieces, type_word, declared_pieces};
ghost use Rattle.sql_print.specs.Printed.{table_pieces, tables_pieces, script_pieces, printed_text};
ghost use Rattle.sql_print.specs.Printed.{script_levels, behind_commas, between_commas};
ghost use Rattle.sql_print.specs.Puts.{Puts, IsShown};
ghost use Rattle.sql_print.specs.Unplaced.{IsReadBack};

use crate::conditions::{Room, put_cond};
use crate::pieces::{put_column, put_mark, put_name, put_word};
use rpt_base::{ColumnType, Memory, Name};
use sql_lex::{Mark, tokens_are_read};
use sql_text::{Alias, ColumnItem, Cond, CreateTable, Item, Items, Script, Select, Source};
use std::alloc::Global;

fn put_title(out: &mut Vec<u8>, title: &Option<Name>) -> Result<(), Memory>
    ensures { OnOk result (Puts (title_pieces title.now) out.old.items out.new.items) }
{
    match title {
        Some(title) => {
            put_word(out, b"AS")?;
            put_name(out, title)?;
            Ok(())
        }
        None => Ok(()),
    }
}

fn put_item(out: &mut Vec<u8>, item: &Item) -> Result<(), Memory>
    ensures { OnOk result (Puts (item_pieces item.now) out.old.items out.new.items) }
{
    put_column(out, &item.column)?;
    put_title(out, &item.title)?;
    Ok(())
}

// The items behind the first.
fn put_more_items(out: &mut Vec<u8>, items: &[Item]) -> Result<(), Memory>
    ensures { OnOk result (Puts (behind_commas item_pieces items.now) out.old.items out.new.items) }
{
    let mut rest = items;
    while let Some((next, behind)) = rest.split_first() {
        put_mark(out, Mark::Comma)?;
        put_item(out, next)?;
        rest = behind;
    }
    Ok(())
}

fn put_items(out: &mut Vec<u8>, items: &Items) -> Result<(), Memory>
    ensures { OnOk result (Puts (items_pieces items.now) out.old.items out.new.items) }
{
    match items {
        Items::Star => {
            put_mark(out, Mark::Star)?;
            Ok(())
        }
        Items::List(items) => match items.as_slice().split_first() {
            Some((first, more)) => {
                put_item(out, first)?;
                put_more_items(out, more)?;
                Ok(())
            }
            None => Ok(()),
        },
    }
}

fn put_alias(out: &mut Vec<u8>, alias: &Option<Alias>) -> Result<(), Memory>
    ensures { OnOk result (Puts (alias_pieces alias.now) out.old.items out.new.items) }
{
    match alias {
        Some(alias) => {
            put_word(out, b"AS")?;
            put_name(out, &alias.name)?;
            Ok(())
        }
        None => Ok(()),
    }
}

fn put_factor(out: &mut Vec<u8>, source: &Source) -> Result<(), Memory>
    ensures { OnOk result (Puts (factor_pieces source.now) out.old.items out.new.items) }
{
    put_name(out, &source.table)?;
    put_alias(out, &source.alias)?;
    Ok(())
}

// A source behind the first: behind a comma, or joined.
fn put_next_source(out: &mut Vec<u8>, source: &Source) -> Result<(), Memory>
    ensures { OnOk result (Puts (next_source source.now.on source.now)
        out.old.items out.new.items) }
{
    match &source.on {
        Some(on) => {
            put_word(out, b"JOIN")?;
            put_factor(out, source)?;
            put_word(out, b"ON")?;
            put_cond(out, Room::Whole, on)?;
            Ok(())
        }
        None => {
            put_mark(out, Mark::Comma)?;
            put_factor(out, source)?;
            Ok(())
        }
    }
}

fn put_next_sources(out: &mut Vec<u8>, sources: &[Source]) -> Result<(), Memory>
    ensures { OnOk result (Puts (next_sources sources.now) out.old.items out.new.items) }
{
    let mut rest = sources;
    while let Some((next, behind)) = rest.split_first() {
        put_next_source(out, next)?;
        rest = behind;
    }
    Ok(())
}

fn put_sources(out: &mut Vec<u8>, sources: &[Source]) -> Result<(), Memory>
    ensures { OnOk result (Puts (sources_pieces sources.now) out.old.items out.new.items) }
{
    match sources.split_first() {
        Some((first, more)) => {
            put_factor(out, first)?;
            put_next_sources(out, more)?;
            Ok(())
        }
        None => Ok(()),
    }
}

fn put_filter(out: &mut Vec<u8>, filter: &Option<Cond>) -> Result<(), Memory>
    ensures { OnOk result (Puts (filter_pieces filter.now) out.old.items out.new.items) }
{
    match filter {
        Some(filter) => {
            put_word(out, b"WHERE")?;
            put_cond(out, Room::Whole, filter)?;
            Ok(())
        }
        None => Ok(()),
    }
}

fn put_select(out: &mut Vec<u8>, select: &Select) -> Result<(), Memory>
    ensures { OnOk result (Puts (select_pieces select.now) out.old.items out.new.items) }
{
    put_word(out, b"SELECT")?;
    put_items(out, &select.items)?;
    put_word(out, b"FROM")?;
    put_sources(out, select.sources.as_slice())?;
    put_filter(out, &select.filter)?;
    Ok(())
}

fn put_type(out: &mut Vec<u8>, kind: ColumnType) -> Result<(), Memory>
    ensures { OnOk result (Puts (λ more. word (type_word kind) ∷ more)
        out.old.items out.new.items) }
{
    match kind {
        ColumnType::Int => {
            put_word(out, b"INT")?;
            Ok(())
        }
        ColumnType::Text => {
            put_word(out, b"TEXT")?;
            Ok(())
        }
    }
}

fn put_declared(out: &mut Vec<u8>, column: &ColumnItem) -> Result<(), Memory>
    ensures { OnOk result (Puts (declared_pieces column.now) out.old.items out.new.items) }
{
    put_name(out, &column.name)?;
    put_type(out, column.kind)?;
    Ok(())
}

// The columns behind the first.
fn put_more_columns(out: &mut Vec<u8>, columns: &[ColumnItem]) -> Result<(), Memory>
    ensures { OnOk result (Puts (behind_commas declared_pieces columns.now)
        out.old.items out.new.items) }
{
    let mut rest = columns;
    while let Some((next, behind)) = rest.split_first() {
        put_mark(out, Mark::Comma)?;
        put_declared(out, next)?;
        rest = behind;
    }
    Ok(())
}

fn put_columns(out: &mut Vec<u8>, columns: &[ColumnItem]) -> Result<(), Memory>
    ensures { OnOk result (Puts (between_commas declared_pieces columns.now)
        out.old.items out.new.items) }
{
    match columns.split_first() {
        Some((first, more)) => {
            put_declared(out, first)?;
            put_more_columns(out, more)?;
            Ok(())
        }
        None => Ok(()),
    }
}

fn put_table(out: &mut Vec<u8>, table: &CreateTable) -> Result<(), Memory>
    ensures { OnOk result (Puts (table_pieces table.now) out.old.items out.new.items) }
{
    put_word(out, b"CREATE")?;
    put_word(out, b"TABLE")?;
    put_name(out, &table.name)?;
    put_mark(out, Mark::LeftParen)?;
    put_columns(out, table.columns.as_slice())?;
    put_mark(out, Mark::RightParen)?;
    put_mark(out, Mark::Semicolon)?;
    Ok(())
}

fn put_tables(out: &mut Vec<u8>, tables: &[CreateTable]) -> Result<(), Memory>
    ensures { OnOk result (Puts (tables_pieces tables.now) out.old.items out.new.items) }
{
    let mut rest = tables;
    while let Some((next, behind)) = rest.split_first() {
        put_table(out, next)?;
        rest = behind;
    }
    Ok(())
}

fn put_script(out: &mut Vec<u8>, script: &Script) -> Result<(), Memory>
    ensures { OnOk result (Puts (script_pieces script.now) out.old.items out.new.items) }
{
    put_tables(out, script.tables.as_slice())?;
    put_select(out, &script.select)?;
    Ok(())
}

// The printed text, as far as it is got to.
fn text_of(alloc: Global, script: &Script) -> Result<Vec<u8>, Memory>
    ensures { IfOk result (λ text. IsShown script.now text.items) }
{
    let mut out = Vec::new(alloc);
    put_script(&mut out, script)?;
    out.extend_from_slice(b";")?;
    Ok(out)
}

/// The theorem on scripts that are read; the call does nothing. Printed, such a script has no more levels than it was read
/// with, since parentheses stand only where they are needed.
pub fn read_scripts_print()
    ensures { (levels : ℕ) (tokens : List Token) (script : Tree) → IsSentence levels tokens script
        → script_levels script ≤ levels }
{}

/// The text of a script: its tokens, with one space between two. `Memory` is want of memory.
///
/// Keywords and types are in capitals, names in quotes, numbers in decimal; a type of numbers is `INT`, AS stands before each
/// alias and title, parentheses only where they are needed, and a semicolon at the end.
pub fn print(alloc: Global, script: &Script) -> Result<Vec<u8>, Memory>
    requires well_formed { IsWellFormed script.now }
    requires levels { script_levels script.now ≤ MAX_LEVELS }
    ensures form { IfOk result (λ text. text.items ≡ printed_text script.now) }
    ensures reads_back { IfOk result (λ text. IsReadBack script.now text.items) }
{
    tokens_are_read();
    text_of(alloc, script)
}
