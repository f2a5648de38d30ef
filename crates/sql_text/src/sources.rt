// What is selected, and from where.
ghost use Rattle.std.specs.Prelude.{◌≡◌, ℕ, IsTrue, ◌↔◌, [], ◌∷◌};
ghost use Rattle.sql_grammar.specs.declared.kinds.Kind.TheVariants as kind;
ghost use Rattle.sql_grammar.specs.Kinds.{code};
ghost use Rattle.sql_grammar.specs.Meaning.{alias_of, title_of as title_said, item_of};
ghost use Rattle.sql_grammar.specs.Meaning.{item_list_of, items_of, factor_of};
ghost use Rattle.sql_grammar.specs.Meaning.{unjoined_source, joined_source, join_of, joins_of};
ghost use Rattle.sql_grammar.specs.Meaning.{source_list_of, source_of, filter_of, select_of};
ghost use Rattle.sql_grammar.specs.Reading.{Gives, Parses, ParsesBehind, ParsesWithin, Heads};

use crate::conditions::cond;
use rpt_base::{Listed, Name};
use sql_grammar::{
    Alias, Cond, Item, Items, Kind, ParseError, Select, Source, after, appended, begins_name,
    begins_with, colref, expect, followed, name, paired, passes,
};
use sql_lex::Token;
use std::alloc::Global;

// `[ [ AS ] name ]`
fn alias(alloc: Global, tokens: &[Token], end: u32) -> Result<(Option<Alias>, &[Token]), ParseError>
    ensures { Parses alias_of tokens.now end result }
{
    if let Some(rest) = after(tokens, Kind::As) {
        let (alias, rest) = name(alloc, rest, end)?;
        return Ok((Some(alias), rest));
    }
    if begins_name(tokens) {
        let (alias, rest) = name(alloc, tokens, end)?;
        return Ok((Some(alias), rest));
    }
    Ok((None, tokens))
}

fn title_of(alias: Option<Alias>) -> Option<Name>
    ensures { result ≡ title_said alias }
{
    match alias {
        Some(alias) => Some(alias.name),
        None => None,
    }
}

fn item(alloc: Global, tokens: &[Token], end: u32) -> Result<(Item, &[Token]), ParseError>
    ensures { Parses item_of tokens.now end result }
{
    let (column, rest) = colref(alloc, tokens, end)?;
    let (alias, rest) = alias(alloc, rest, end)?;
    Ok((
        Item {
            column,
            title: title_of(alias),
        },
        rest,
    ))
}

fn item_list(
    alloc: Global,
    tokens: &[Token],
    end: u32,
) -> Result<(Listed<Item>, &[Token]), ParseError>
    ensures { Parses item_list_of tokens.now end result }
{
    let mut found = Vec::new(alloc);
    let mut rest = tokens;
    loop {
        let (all, behind) = appended(found, item(alloc, rest, end))?;
        found = all;
        match after(behind, Kind::Comma) {
            Some(next) => rest = next,
            None => return Ok((Listed::from_vec(found), behind)),
        }
    }
}

fn items(alloc: Global, tokens: &[Token], end: u32) -> Result<(Items, &[Token]), ParseError>
    ensures { Parses items_of tokens.now end result }
{
    match after(tokens, Kind::Star) {
        Some(rest) => Ok((Items::Star, rest)),
        None => {
            let (items, rest) = item_list(alloc, tokens, end)?;
            Ok((Items::List(items), rest))
        }
    }
}

// A table and its alias. The source is made of them last.
fn table_of(
    alloc: Global,
    tokens: &[Token],
    end: u32,
) -> Result<((Alias, Option<Alias>), &[Token]), ParseError>
    ensures { (n : ℕ) → Gives factor_of (λ found. unjoined_source found.0.0 found.0.1)
        (λ found. found.1.now) n tokens.now end result }
{
    let (table, rest) = name(alloc, tokens, end)?;
    paired(table, alias(alloc, rest, end))
}

// A table that is joined to none before it.
fn unjoined(table: Alias, alias: Option<Alias>) -> Source
    ensures { result ≡ unjoined_source table alias }
{
    Source {
        at: table.at,
        table: table.name,
        alias,
        on: None,
    }
}

// A table with its alias, not yet joined to others.
fn factor(alloc: Global, tokens: &[Token], end: u32) -> Result<(Source, &[Token]), ParseError>
    ensures { Parses factor_of tokens.now end result }
{
    let ((table, alias), rest) = table_of(alloc, tokens, end)?;
    Ok((unjoined(table, alias), rest))
}

// A table that is joined to those before it.
fn joined(table: Alias, alias: Option<Alias>, on: Cond) -> Source
    ensures { result ≡ joined_source (unjoined_source table alias) on }
{
    Source {
        at: table.at,
        table: table.name,
        alias,
        on: Some(on),
    }
}

// `[ INNER ] JOIN factor ON cond`
fn join(
    alloc: Global,
    tokens: &[Token],
    end: u32,
    levels: u32,
) -> Result<(Source, &[Token]), ParseError>
    ensures { ParsesWithin levels join_of tokens.now end result }
{
    let (_, rest) = passes(tokens, Kind::Inner);
    let rest = expect(rest, end, Kind::Join)?;
    let (table, rest) = table_of(alloc, rest, end)?;
    let (table, rest) = followed(table, rest, end, Kind::On)?;
    let (((table, alias), on), rest) = paired(table, cond(alloc, rest, end, levels))?;
    Ok((joined(table, alias, on), rest))
}

fn begins_join(tokens: &[Token]) -> bool
    ensures { IsTrue result ↔ Heads (code kind.Inner ∷ code kind.Join ∷ []) tokens.now }
{
    begins_with(tokens, Kind::Inner) || begins_with(tokens, Kind::Join)
}

// The joined sources, behind those that were found.
fn joins(
    mut found: Vec<Source>,
    alloc: Global,
    tokens: &[Token],
    end: u32,
    levels: u32,
) -> Result<(Vec<Source>, &[Token]), ParseError>
    ensures { ParsesBehind levels found.items joins_of tokens.now end result }
{
    let mut rest = tokens;
    while begins_join(rest) {
        let (all, behind) = appended(found, join(alloc, rest, end, levels))?;
        found = all;
        rest = behind;
    }
    Ok((found, rest))
}

// A source with those that are joined to it, behind those that were found.
fn source(
    found: Vec<Source>,
    alloc: Global,
    tokens: &[Token],
    end: u32,
    levels: u32,
) -> Result<(Vec<Source>, &[Token]), ParseError>
    ensures { ParsesBehind levels found.items source_of tokens.now end result }
{
    let (found, rest) = appended(found, factor(alloc, tokens, end))?;
    joins(found, alloc, rest, end, levels)
}

fn sources(
    alloc: Global,
    tokens: &[Token],
    end: u32,
    levels: u32,
) -> Result<(Listed<Source>, &[Token]), ParseError>
    ensures { ParsesWithin levels source_list_of tokens.now end result }
{
    let mut found = Vec::new(alloc);
    let mut rest = tokens;
    loop {
        let (all, behind) = source(found, alloc, rest, end, levels)?;
        found = all;
        match after(behind, Kind::Comma) {
            Some(next) => rest = next,
            None => return Ok((Listed::from_vec(found), behind)),
        }
    }
}

// `[ WHERE cond ]`
fn filter(
    alloc: Global,
    tokens: &[Token],
    end: u32,
    levels: u32,
) -> Result<(Option<Cond>, &[Token]), ParseError>
    ensures { ParsesWithin levels filter_of tokens.now end result }
{
    match after(tokens, Kind::Where) {
        Some(rest) => {
            let (condition, rest) = cond(alloc, rest, end, levels)?;
            Ok((Some(condition), rest))
        }
        None => Ok((None, tokens)),
    }
}

/// What a script selects, with conditions of at most this many levels.
pub fn select(
    alloc: Global,
    tokens: &[Token],
    end: u32,
    levels: u32,
) -> Result<(Select, &[Token]), ParseError>
    ensures { ParsesWithin levels select_of tokens.now end result }
{
    let rest = expect(tokens, end, Kind::Select)?;
    let (items, rest) = items(alloc, rest, end)?;
    let (items, rest) = followed(items, rest, end, Kind::From)?;
    let (found, rest) = paired(items, sources(alloc, rest, end, levels))?;
    let (((items, sources), filter), rest) = paired(found, filter(alloc, rest, end, levels))?;
    Ok((
        Select {
            items,
            sources,
            filter,
        },
        rest,
    ))
}
