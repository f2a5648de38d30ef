// Columns and operands.
ghost use Rattle.std.specs.Prelude.{◌≡◌};
ghost use Rattle.sql_grammar.specs.Meaning.{colref_of, operand_of};
ghost use Rattle.sql_grammar.specs.Reading.{Parses};

use crate::errors::ParseError;
use crate::kinds::Kind;
use crate::leaves::{begins_name, literal, name};
use crate::reading::{after, paired, place_of};
use crate::tree::{ColumnName, Expr};
use sql_lex::Token;
use std::alloc::Global;

/// A column, `name [ "." name ]`, which must stand first, and what follows it. Else `Syntax` is at the first token with which
/// none goes on or, where there is none, at `end`.
pub fn colref(
    alloc: Global,
    tokens: &[Token],
    end: u32,
) -> Result<(ColumnName, &[Token]), ParseError>
    ensures { Parses colref_of tokens.now end result }
{
    let (first, rest) = name(alloc, tokens, end)?;
    match after(rest, Kind::Dot) {
        Some(rest) => {
            let ((first, column), rest) = paired(first, name(alloc, rest, end))?;
            Ok((
                ColumnName {
                    at: first.at,
                    relation: Some(first.name),
                    column: column.name,
                },
                rest,
            ))
        }
        None => Ok((
            ColumnName {
                at: first.at,
                relation: None,
                column: first.name,
            },
            rest,
        )),
    }
}

/// An operand: a column or a literal.
pub fn operand(alloc: Global, tokens: &[Token], end: u32) -> Result<(Expr, &[Token]), ParseError>
    ensures { Parses operand_of tokens.now end result }
{
    if begins_name(tokens) {
        let (column, rest) = colref(alloc, tokens, end)?;
        return Ok((Expr::Column(column), rest));
    }
    let at = place_of(tokens, end);
    let (value, rest) = literal(alloc, tokens, end)?;
    Ok((Expr::Literal { at, value }, rest))
}
