// Conditions that join and negate no others: comparisons, BETWEEN, IN and LIKE.
ghost use Rattle.std.specs.Prelude.{◌≡◌};
ghost use Rattle.sql_grammar.specs.Meaning.{literal_list_of, range_of, list_of};
ghost use Rattle.sql_grammar.specs.Meaning.{predicate_of, test_of, operand_of, text_of};
ghost use Rattle.sql_grammar.specs.Meaning.{compare, between_bounds, in_list, like};
ghost use Rattle.sql_grammar.specs.Reading.{Parses};

use crate::errors::ParseError;
use crate::kinds::Kind;
use crate::leaves::{comparison, literal, text};
use crate::operands::operand;
use crate::reading::{after, appended, expect, followed, paired, passes};
use crate::tree::{Cond, Expr};
use rpt_base::{Comparison, Listed, Value};
use sql_lex::Token;
use std::alloc::Global;

// What follows BETWEEN: `operand AND operand`.
fn range(alloc: Global, tokens: &[Token], end: u32) -> Result<((Expr, Expr), &[Token]), ParseError>
    ensures { Parses range_of tokens.now end result }
{
    let (low, rest) = operand(alloc, tokens, end)?;
    let (low, rest) = followed(low, rest, end, Kind::And)?;
    paired(low, operand(alloc, rest, end))
}

fn literals(
    alloc: Global,
    tokens: &[Token],
    end: u32,
) -> Result<(Listed<Value>, &[Token]), ParseError>
    ensures { Parses literal_list_of tokens.now end result }
{
    let mut found = Vec::new(alloc);
    let mut rest = tokens;
    loop {
        let (all, behind) = appended(found, literal(alloc, rest, end))?;
        found = all;
        match after(behind, Kind::Comma) {
            Some(next) => rest = next,
            None => return Ok((Listed::from_vec(found), behind)),
        }
    }
}

// What follows IN: literals in parentheses.
fn list(alloc: Global, tokens: &[Token], end: u32) -> Result<(Listed<Value>, &[Token]), ParseError>
    ensures { Parses list_of tokens.now end result }
{
    let rest = expect(tokens, end, Kind::LeftParen)?;
    let (values, rest) = literals(alloc, rest, end)?;
    followed(values, rest, end, Kind::RightParen)
}

// What follows a comparison, behind its left side.
fn compared(
    left: Expr,
    op: Comparison,
    alloc: Global,
    tokens: &[Token],
    end: u32,
) -> Result<(Cond, &[Token]), ParseError>
    ensures { Parses (λ right. compare left op (operand_of right)) tokens.now end result }
{
    let ((left, right), rest) = paired(left, operand(alloc, tokens, end))?;
    Ok((
        Cond::Compare {
            at: left.at(),
            op,
            left,
            right,
        },
        rest,
    ))
}

// What follows BETWEEN, as a condition on the operand in front.
fn between(
    operand: Expr,
    negated: bool,
    alloc: Global,
    tokens: &[Token],
    end: u32,
) -> Result<(Cond, &[Token]), ParseError>
    ensures { Parses (between_bounds operand negated) tokens.now end result }
{
    let ((operand, (low, high)), rest) = paired(operand, range(alloc, tokens, end))?;
    Ok((
        Cond::Between {
            at: operand.at(),
            negated,
            operand,
            low,
            high,
        },
        rest,
    ))
}

// What follows IN, as a condition on the operand in front.
fn in_list(
    operand: Expr,
    negated: bool,
    alloc: Global,
    tokens: &[Token],
    end: u32,
) -> Result<(Cond, &[Token]), ParseError>
    ensures { Parses (λ values. in_list operand negated (list_of values)) tokens.now end result }
{
    let ((operand, values), rest) = paired(operand, list(alloc, tokens, end))?;
    Ok((
        Cond::InList {
            at: operand.at(),
            negated,
            operand,
            values,
        },
        rest,
    ))
}

// What follows LIKE, as a condition on the operand in front.
fn like(
    operand: Expr,
    negated: bool,
    alloc: Global,
    tokens: &[Token],
    end: u32,
) -> Result<(Cond, &[Token]), ParseError>
    ensures { Parses (λ pattern. like operand negated (text_of pattern)) tokens.now end result }
{
    let ((operand, pattern), rest) = paired(operand, text(alloc, tokens, end))?;
    Ok((
        Cond::Like {
            at: operand.at(),
            negated,
            operand,
            pattern,
        },
        rest,
    ))
}

// What follows an operand that isn't compared.
fn predicate(
    operand: Expr,
    alloc: Global,
    tokens: &[Token],
    end: u32,
) -> Result<(Cond, &[Token]), ParseError>
    ensures { Parses (predicate_of operand) tokens.now end result }
{
    let (negated, rest) = passes(tokens, Kind::Not);
    if let Some(rest) = after(rest, Kind::Between) {
        return between(operand, negated, alloc, rest, end);
    }
    if let Some(rest) = after(rest, Kind::In) {
        return in_list(operand, negated, alloc, rest, end);
    }
    let (operand, rest) = followed(operand, rest, end, Kind::Like)?;
    like(operand, negated, alloc, rest, end)
}

/// A condition that joins and negates no others, which must stand first, and what follows it. Else `Syntax` is at the first
/// token with which none goes on or, where there is none, at `end`.
pub fn test(alloc: Global, tokens: &[Token], end: u32) -> Result<(Cond, &[Token]), ParseError>
    ensures { Parses test_of tokens.now end result }
{
    let (left, rest) = operand(alloc, tokens, end)?;
    match comparison(rest) {
        Some((op, rest)) => compared(left, op, alloc, rest, end),
        None => predicate(left, alloc, rest, end),
    }
}
