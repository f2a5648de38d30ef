// A script: what it declares, and what it selects.
ghost use Rattle.std.specs.Prelude.{◌≡◌, ℕ, length, IfOk, IfErr, Err};
ghost use Rattle.rpt_base.specs.declared.limits.TheConstants.{MAX_LEVELS};
ghost use Rattle.sql_grammar.specs.Meaning.{column_of, column_list_of};
ghost use Rattle.sql_grammar.specs.Meaning.{create_of, creates_of, script_of};
ghost use Rattle.sql_grammar.specs.Formed.{IsWellFormed};
ghost use Rattle.sql_grammar.specs.Reading.{Parses, ParsesWithin};
ghost use Rattle.sql_grammar.specs.Sentence.{IsSentence, IsSyntaxError};
ghost use Rattle.sql_grammar.specs.Sentence.{IsTooDeep, IsOnlyReading, place};

use crate::sources::select;
use rpt_base::Listed;
use rpt_base::limits::MAX_LEVELS;
use sql_grammar::{
    ColumnItem, CreateTable, Kind, ParseError, Script, after, appended, begins_with, column_type,
    expect, followed, name, paired, passes, place_of,
};
use sql_lex::Token;
use std::alloc::Global;

fn column(alloc: Global, tokens: &[Token], end: u32) -> Result<(ColumnItem, &[Token]), ParseError>
    ensures { Parses column_of tokens.now end result }
{
    let (column, rest) = name(alloc, tokens, end)?;
    let (kind, rest) = column_type(rest, end)?;
    Ok((
        ColumnItem {
            at: column.at,
            name: column.name,
            kind,
        },
        rest,
    ))
}

fn columns(
    alloc: Global,
    tokens: &[Token],
    end: u32,
) -> Result<(Listed<ColumnItem>, &[Token]), ParseError>
    ensures { Parses column_list_of tokens.now end result }
{
    let mut found = Vec::new(alloc);
    let mut rest = tokens;
    loop {
        let (all, behind) = appended(found, column(alloc, rest, end))?;
        found = all;
        match after(behind, Kind::Comma) {
            Some(next) => rest = next,
            None => return Ok((Listed::from_vec(found), behind)),
        }
    }
}

fn create(alloc: Global, tokens: &[Token], end: u32) -> Result<(CreateTable, &[Token]), ParseError>
    ensures { Parses create_of tokens.now end result }
{
    let rest = expect(tokens, end, Kind::Create)?;
    let rest = expect(rest, end, Kind::Table)?;
    let (table, rest) = name(alloc, rest, end)?;
    let (table, rest) = followed(table, rest, end, Kind::LeftParen)?;
    let (found, rest) = paired(table, columns(alloc, rest, end))?;
    let (found, rest) = followed(found, rest, end, Kind::RightParen)?;
    let ((table, columns), rest) = followed(found, rest, end, Kind::Semicolon)?;
    Ok((
        CreateTable {
            at: table.at,
            name: table.name,
            columns,
        },
        rest,
    ))
}

// The declared tables.
fn creates(
    alloc: Global,
    tokens: &[Token],
    end: u32,
) -> Result<(Listed<CreateTable>, &[Token]), ParseError>
    ensures { Parses creates_of tokens.now end result }
{
    let mut found = Vec::new(alloc);
    let mut rest = tokens;
    while begins_with(rest, Kind::Create) {
        let (all, behind) = appended(found, create(alloc, rest, end))?;
        found = all;
        rest = behind;
    }
    Ok((Listed::from_vec(found), rest))
}

// A script, in which at most this many levels may be opened.
fn script(
    alloc: Global,
    tokens: &[Token],
    end: u32,
    levels: u32,
) -> Result<(Script, &[Token]), ParseError>
    ensures { ParsesWithin levels script_of tokens.now end result }
{
    let (tables, rest) = creates(alloc, tokens, end)?;
    let (select, rest) = select(alloc, rest, end, levels)?;
    let (_, rest) = passes(rest, Kind::Semicolon);
    Ok((Script { tables, select }, rest))
}

// What was read, where no token is left.
fn alone<T: Drop>(found: T, rest: &[Token], end: u32) -> Result<T, ParseError>
    ensures ok { IfOk result (λ all. (all ≡ found) × (length rest.now ≡ 0)) }
    ensures err { IfErr result (λ error. (error ≡ ParseError.Syntax (place rest.now end))
        × (length rest.now ≡ 0 → ⊥)) }
{
    if rest.is_empty() {
        Ok(found)
    } else {
        Err(ParseError::Syntax {
            at: place_of(rest, end),
        })
    }
}

/// The syntax tree of a script's tokens, where `end` is the script's length.
///
/// `Syntax` is at the first token with which no script goes on so or, where the tokens begin a script and are none, at `end`.
/// `TooDeep` is at the token that opens a 65th level, where no `Syntax` comes before it. A level is opened by a parenthesis
/// that begins a condition, up to the one that closes it, and by a NOT, up to the end of what it negates.
pub fn parse(alloc: Global, tokens: &[Token], end: u32) -> Result<Script, ParseError>
    ensures ok { IfOk result (λ script. IsSentence MAX_LEVELS tokens.now script) }
    ensures syntax { (at : ℕ) → result ≡ Err (ParseError.Syntax at)
        → IsSyntaxError MAX_LEVELS tokens.now end at }
    ensures too_deep { (at : ℕ) → result ≡ Err (ParseError.TooDeep at)
        → IsTooDeep MAX_LEVELS tokens.now at }
    ensures well_formed { IfOk result (λ script. IsWellFormed script) }
    ensures only { IsOnlyReading MAX_LEVELS tokens.now end result }
{
    let (script, rest) = script(alloc, tokens, end, MAX_LEVELS)?;
    alone(script, rest, end)
}
