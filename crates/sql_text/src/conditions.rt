// Conditions. A parenthesis and a NOT open a level each; the conditions that OR and AND join are read by loops.
ghost use Rattle.std.specs.Prelude.{◌≡◌, ◌∷◌, List};
ghost use Rattle.sql_grammar.specs.Meaning.{cond_of, conj_of, neg_of, prim_of, joined_conditions};
ghost use Rattle.sql_grammar.specs.Reading.{ParsesWithin};

use sql_grammar::{Cond, Kind, ParseError, after, appended, first_is, followed, test};
use sql_lex::Token;
use sqlite_items::{Boxed, Items as Members};
use std::alloc::Global;

// One alone is itself.
fn all_of(mut found: Vec<Cond>) -> Cond
    ensures { (first : Cond) (more : List Cond) → found.items ≡ first ∷ more
        → result ≡ joined_conditions Cond.And first more }
{
    if found.len() > 1 {
        return Cond::And(Members::from_vec(found));
    }
    match found.pop() {
        Some(only) => only,
        None => Cond::And(Members::from_vec(found)),
    }
}

// One alone is itself.
fn any_of(mut found: Vec<Cond>) -> Cond
    ensures { (first : Cond) (more : List Cond) → found.items ≡ first ∷ more
        → result ≡ joined_conditions Cond.Or first more }
{
    if found.len() > 1 {
        return Cond::Or(Members::from_vec(found));
    }
    match found.pop() {
        Some(only) => only,
        None => Cond::Or(Members::from_vec(found)),
    }
}

/// A condition, in which at most this many levels may be opened.
#[cycle(cond)]
pub fn cond(
    alloc: Global,
    tokens: &[Token],
    end: u32,
    levels: u32,
) -> Result<(Cond, &[Token]), ParseError>
    ensures { ParsesWithin levels cond_of tokens.now end result }
{
    let mut found = Vec::new(alloc);
    let mut rest = tokens;
    loop {
        let (all, behind) = appended(found, conj(alloc, rest, end, levels))?;
        found = all;
        match after(behind, Kind::Or) {
            Some(next) => rest = next,
            None => return Ok((any_of(found), behind)),
        }
    }
}

#[cycle(cond)]
fn conj(
    alloc: Global,
    tokens: &[Token],
    end: u32,
    levels: u32,
) -> Result<(Cond, &[Token]), ParseError>
    ensures { ParsesWithin levels conj_of tokens.now end result }
{
    let mut found = Vec::new(alloc);
    let mut rest = tokens;
    loop {
        let (all, behind) = appended(found, neg(alloc, rest, end, levels))?;
        found = all;
        match after(behind, Kind::And) {
            Some(next) => rest = next,
            None => return Ok((all_of(found), behind)),
        }
    }
}

#[cycle(cond)]
fn neg(
    alloc: Global,
    tokens: &[Token],
    end: u32,
    levels: u32,
) -> Result<(Cond, &[Token]), ParseError>
    ensures { ParsesWithin levels neg_of tokens.now end result }
{
    match first_is(tokens, Kind::Not) {
        Some((token, rest)) => {
            if levels == 0 {
                return Err(ParseError::TooDeep { at: token.start });
            }
            let (inner, rest) = neg(alloc, rest, end, levels - 1)?;
            let inner = Boxed::new(alloc, inner)?;
            Ok((
                Cond::Not {
                    at: token.start,
                    inner,
                },
                rest,
            ))
        }
        None => prim(alloc, tokens, end, levels),
    }
}

#[cycle(cond)]
fn prim(
    alloc: Global,
    tokens: &[Token],
    end: u32,
    levels: u32,
) -> Result<(Cond, &[Token]), ParseError>
    ensures { ParsesWithin levels prim_of tokens.now end result }
{
    match first_is(tokens, Kind::LeftParen) {
        Some((token, rest)) => {
            if levels == 0 {
                return Err(ParseError::TooDeep { at: token.start });
            }
            let (inner, rest) = cond(alloc, rest, end, levels - 1)?;
            followed(inner, rest, end, Kind::RightParen)
        }
        None => test(alloc, tokens, end),
    }
}
