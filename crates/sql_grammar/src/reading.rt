// The readers of a token. Each takes the tokens that are left, and gives what it read and the tokens behind.
//
// What a reader read before it passes to `followed`, `paired` or `appended`, and holds no part of the tree itself where it
// may return early: each part that it held there would make the model of its body, and so its proof, much larger.
ghost use Rattle.std.specs.Prelude.{◌≡◌, ◌∷◌, [], IfSome, IfNone, IsTrue, ◌↔◌};
ghost use Rattle.sql_grammar.specs.Kinds.{kind_of as its_kind, code};
ghost use Rattle.sql_grammar.specs.Grammar.{word};
ghost use Rattle.sql_grammar.specs.Meaning.{is_there};
ghost use Rattle.sql_grammar.specs.Reading.{Parses, Passes, IsParsed, IsPaired, IsAppended};
ghost use Rattle.sql_grammar.specs.Reading.{IsFirst, Heads, Starts};
ghost use Rattle.sql_grammar.specs.Sentence.{place};

use crate::errors::ParseError;
use crate::kinds::{Kind, kind_of};
use sql_lex::Token;

/// The offset of the first token or, where there is none, the end.
pub fn place_of(tokens: &[Token], end: u32) -> u32
    ensures { result ≡ place tokens.now end }
{
    match tokens.first() {
        Some(token) => token.start,
        None => end,
    }
}

fn is_kind(token: &Token, kind: Kind) -> bool
    ensures { IsTrue result ↔ (its_kind token.now ≡ kind) }
{
    kind_of(token) == kind
}

/// The first token, if it is of this kind, and what follows it.
pub fn first_is(tokens: &[Token], kind: Kind) -> Option<(&Token, &[Token])>
    ensures some { IfSome result (IsFirst kind tokens.now) }
    ensures none { IfNone result (Heads (code kind ∷ []) tokens.now → ⊥) }
{
    let (token, rest) = tokens.split_first()?;
    if is_kind(token, kind) {
        Some((token, rest))
    } else {
        None
    }
}

/// What follows the first token, if that is of this kind.
pub fn after(tokens: &[Token], kind: Kind) -> Option<&[Token]>
    ensures some { IfSome result (λ rest. Starts kind tokens.now rest.now) }
    ensures none { IfNone result (Heads (code kind ∷ []) tokens.now → ⊥) }
{
    let (_, rest) = first_is(tokens, kind)?;
    Some(rest)
}

/// Whether a token of this kind stands first.
pub fn begins_with(tokens: &[Token], kind: Kind) -> bool
    ensures { IsTrue result ↔ Heads (code kind ∷ []) tokens.now }
{
    match tokens.first() {
        Some(token) => is_kind(token, kind),
        None => false,
    }
}

/// What follows a token of this kind, which must stand first; else `Syntax` is at the first token or, where there is none, at
/// `end`.
pub fn expect(tokens: &[Token], end: u32, kind: Kind) -> Result<&[Token], ParseError>
    ensures { Passes (word kind) tokens.now end result }
{
    match after(tokens, kind) {
        Some(rest) => Ok(rest),
        None => Err(ParseError::Syntax {
            at: place_of(tokens, end),
        }),
    }
}

/// What was found before, and what follows a token of this kind, which must stand first as `expect` has it.
pub fn followed<T: Drop>(
    found: T,
    tokens: &[Token],
    end: u32,
    kind: Kind,
) -> Result<(T, &[Token]), ParseError>
    ensures { Parses {p = word kind} (λ _. found) tokens.now end result }
{
    let rest = expect(tokens, end, kind)?;
    Ok((found, rest))
}

/// What was found before and what was read next, and what follows it. Where nothing was read, its error is handed on.
pub fn paired<T: Drop, U: Drop>(
    found: T,
    next: Result<(U, &[Token]), ParseError>,
) -> Result<((T, U), &[Token]), ParseError>
    ensures { IsPaired found next.entry result }
{
    let (next, rest) = next?;
    Ok(((found, next), rest))
}

/// What was found before and behind it what was read next, and what follows that. Where nothing was read, its error is handed
/// on.
pub fn appended<T: Drop>(
    mut found: Vec<T>,
    next: Result<(T, &[Token]), ParseError>,
) -> Result<(Vec<T>, &[Token]), ParseError>
    ensures { IsAppended found.items next.entry result }
{
    let (next, rest) = next?;
    found.push(next)?;
    Ok((found, rest))
}

/// Whether a token of this kind stands first, and what follows it; all the tokens, if none does.
pub fn passes(tokens: &[Token], kind: Kind) -> (bool, &[Token])
    ensures { IsParsed (is_there {p = word kind}) tokens.now result }
{
    match after(tokens, kind) {
        Some(rest) => (true, rest),
        None => (false, tokens),
    }
}
