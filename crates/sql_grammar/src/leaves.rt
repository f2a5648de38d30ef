// The least parts of a script that mean something: names, types, comparisons, texts and literals.
ghost use Rattle.std.specs.Prelude.{◌≡◌, ◌≤◌, ◌↔◌, pos, neg_ℤ, true};
ghost use Rattle.std.specs.Prelude.{IfOk, IfSome, IfNone, IsTrue};
ghost use Rattle.sql_grammar.specs.Kinds.{kind_of as its_kind, numbers, among};
ghost use Rattle.sql_grammar.specs.Grammar.{names, types, comparisons, magnitudes};
ghost use Rattle.sql_grammar.specs.Meaning.{written_text as written_in};
ghost use Rattle.sql_grammar.specs.Meaning.{magnitude as magnitude_in, placed_name, type_by};
ghost use Rattle.sql_grammar.specs.Meaning.{type_of as type_said, op_by, op_of as op_said};
ghost use Rattle.sql_grammar.specs.Meaning.{negative_of, literal_of, text_of as text_said};
ghost use Rattle.sql_grammar.specs.Reading.{Parses, IsParsed, IsFirstAmong, Heads};

use crate::errors::ParseError;
use crate::kinds::{Kind, kind_of};
use crate::reading::{after, first_is, place_of};
use crate::tree::Alias;
use rpt_base::{ColumnType, Comparison, Memory, Name, Str, Value};
use sql_lex::{Token, TokenKind, words_are_names};
use std::alloc::Global;

// The bytes of a word, a quoted name or a text.
fn written(token: &Token) -> &[u8]
    ensures { result.now ≡ written_in token.now.kind }
{
    match &token.kind {
        TokenKind::Word(text) => text.bytes(),
        TokenKind::Quoted(text) => text.bytes(),
        TokenKind::Text(text) => text.bytes(),
        TokenKind::Number(_) => &[],
        TokenKind::Mark(_) => &[],
    }
}

fn is_name(kind: Kind) -> bool
    ensures { result ≡ among names kind }
{
    match kind {
        Kind::Name | Kind::Int | Kind::Integer | Kind::Bigint | Kind::TextType => true,
        _ => false,
    }
}

// A name's token, if one stands first.
fn first_name(tokens: &[Token]) -> Option<(&Token, &[Token])>
    ensures some { IfSome result (IsFirstAmong names tokens.now) }
    ensures none { IfNone result (Heads (numbers names) tokens.now → ⊥) }
{
    let (token, rest) = tokens.split_first()?;
    if is_name(kind_of(token)) {
        Some((token, rest))
    } else {
        None
    }
}

/// Whether a name stands first. The words of types are names too.
pub fn begins_name(tokens: &[Token]) -> bool
    ensures { IsTrue result ↔ Heads (numbers names) tokens.now }
{
    match tokens.first() {
        Some(token) => is_name(kind_of(token)),
        None => false,
    }
}

fn name_of(alloc: Global, token: &Token) -> Result<Name, Memory>
    requires { among names (its_kind token.now) ≡ true }
    ensures { IfOk result (λ name. name ≡ written_in token.now.kind) }
{
    words_are_names();
    Name::make(alloc, written(token))
}

/// A name with its place, which must stand first, and what follows it; else `Syntax` is at the first token or, where there is
/// none, at `end`.
pub fn name(alloc: Global, tokens: &[Token], end: u32) -> Result<(Alias, &[Token]), ParseError>
    ensures { Parses placed_name tokens.now end result }
{
    match first_name(tokens) {
        Some((token, rest)) => {
            let name = name_of(alloc, token)?;
            Ok((
                Alias {
                    at: token.start,
                    name,
                },
                rest,
            ))
        }
        None => Err(ParseError::Syntax {
            at: place_of(tokens, end),
        }),
    }
}

fn is_type(kind: Kind) -> bool
    ensures { result ≡ among types kind }
{
    match kind {
        Kind::Int | Kind::Integer | Kind::Bigint | Kind::TextType => true,
        _ => false,
    }
}

fn type_of(kind: Kind) -> ColumnType
    ensures { result ≡ type_by kind }
{
    match kind {
        Kind::TextType => ColumnType::Text,
        _ => ColumnType::Int,
    }
}

// A type's token, if one stands first.
fn first_type(tokens: &[Token]) -> Option<(&Token, &[Token])>
    ensures some { IfSome result (IsFirstAmong types tokens.now) }
    ensures none { IfNone result (Heads (numbers types) tokens.now → ⊥) }
{
    let (token, rest) = tokens.split_first()?;
    if is_type(kind_of(token)) {
        Some((token, rest))
    } else {
        None
    }
}

/// A type, which must stand first, and what follows it; else `Syntax` as for a name.
pub fn column_type(tokens: &[Token], end: u32) -> Result<(ColumnType, &[Token]), ParseError>
    ensures { Parses type_said tokens.now end result }
{
    match first_type(tokens) {
        Some((token, rest)) => Ok((type_of(kind_of(token)), rest)),
        None => Err(ParseError::Syntax {
            at: place_of(tokens, end),
        }),
    }
}

fn is_comparison(kind: Kind) -> bool
    ensures { result ≡ among comparisons kind }
{
    match kind {
        Kind::Eq | Kind::Ne | Kind::Lt | Kind::Le | Kind::Gt | Kind::Ge => true,
        _ => false,
    }
}

fn op_of(kind: Kind) -> Comparison
    ensures { result ≡ op_by kind }
{
    match kind {
        Kind::Eq => Comparison::Eq,
        Kind::Ne => Comparison::Ne,
        Kind::Lt => Comparison::Lt,
        Kind::Le => Comparison::Le,
        Kind::Gt => Comparison::Gt,
        _ => Comparison::Ge,
    }
}

// A comparison's token, if one stands first.
fn first_comparison(tokens: &[Token]) -> Option<(&Token, &[Token])>
    ensures some { IfSome result (IsFirstAmong comparisons tokens.now) }
    ensures none { IfNone result (Heads (numbers comparisons) tokens.now → ⊥) }
{
    let (token, rest) = tokens.split_first()?;
    if is_comparison(kind_of(token)) {
        Some((token, rest))
    } else {
        None
    }
}

/// How operands are compared, if that stands first, and what follows it.
pub fn comparison(tokens: &[Token]) -> Option<(Comparison, &[Token])>
    ensures some { IfSome result (IsParsed op_said tokens.now) }
    ensures begins { IfSome result (λ found. Heads (numbers comparisons) tokens.now) }
    ensures none { IfNone result (Heads (numbers comparisons) tokens.now → ⊥) }
{
    let (token, rest) = first_comparison(tokens)?;
    Some((op_of(kind_of(token)), rest))
}

fn text_copy(alloc: Global, token: &Token) -> Result<Str, Memory>
    ensures { IfOk result (λ text. text ≡ written_in token.now.kind) }
{
    match &token.kind {
        TokenKind::Word(text) => text.copy(alloc),
        TokenKind::Quoted(text) => text.copy(alloc),
        TokenKind::Text(text) => text.copy(alloc),
        TokenKind::Number(_) => Str::from_text(alloc, ""),
        TokenKind::Mark(_) => Str::from_text(alloc, ""),
    }
}

/// A text, which must stand first, and what follows it; else `Syntax` as for a name.
pub fn text(alloc: Global, tokens: &[Token], end: u32) -> Result<(Str, &[Token]), ParseError>
    ensures { Parses text_said tokens.now end result }
{
    match first_is(tokens, Kind::Text) {
        Some((token, rest)) => Ok((text_copy(alloc, token)?, rest)),
        None => Err(ParseError::Syntax {
            at: place_of(tokens, end),
        }),
    }
}

fn magnitude(token: &Token) -> u64
    ensures { result ≡ magnitude_in token.now.kind }
{
    match &token.kind {
        TokenKind::Number(number) => *number,
        TokenKind::Word(_) | TokenKind::Quoted(_) | TokenKind::Text(_) | TokenKind::Mark(_) => 0,
    }
}

fn positive(value: u64) -> Value
    requires { value ≤ 9223372036854775807 }
    ensures { result ≡ Value.Int (pos value) }
{
    Value::Int(value as i64)
}

fn negative(value: u64) -> Value
    requires { value ≤ 9223372036854775808 }
    ensures { result ≡ Value.Int (neg_ℤ (pos value)) }
{
    if value == 9_223_372_036_854_775_808 {
        Value::Int(i64::MIN)
    } else {
        Value::Int(-(value as i64))
    }
}

fn is_magnitude(kind: Kind) -> bool
    ensures { result ≡ among magnitudes kind }
{
    match kind {
        Kind::Number | Kind::Greatest => true,
        _ => false,
    }
}

// A number's token, as it may stand behind a minus, if one stands first.
fn first_magnitude(tokens: &[Token]) -> Option<(&Token, &[Token])>
    ensures some { IfSome result (IsFirstAmong magnitudes tokens.now) }
    ensures none { IfNone result (Heads (numbers magnitudes) tokens.now → ⊥) }
{
    let (token, rest) = tokens.split_first()?;
    if is_magnitude(kind_of(token)) {
        Some((token, rest))
    } else {
        None
    }
}

// The number behind a minus, as it is with the minus.
fn behind_minus(tokens: &[Token], end: u32) -> Result<(Value, &[Token]), ParseError>
    ensures { Parses negative_of tokens.now end result }
{
    match first_magnitude(tokens) {
        Some((token, rest)) => Ok((negative(magnitude(token)), rest)),
        None => Err(ParseError::Syntax {
            at: place_of(tokens, end),
        }),
    }
}

/// A literal, which must stand first, and what follows it: a number, a minus with a number behind it, or a text. Else `Syntax`
/// is at the first token with which no literal goes on or, where there is none, at `end`.
pub fn literal(alloc: Global, tokens: &[Token], end: u32) -> Result<(Value, &[Token]), ParseError>
    ensures { Parses literal_of tokens.now end result }
{
    if let Some((token, rest)) = first_is(tokens, Kind::Number) {
        return Ok((positive(magnitude(token)), rest));
    }
    match after(tokens, Kind::Minus) {
        Some(rest) => behind_minus(rest, end),
        None => {
            let (text, rest) = text(alloc, tokens, end)?;
            Ok((Value::Text(text), rest))
        }
    }
}
