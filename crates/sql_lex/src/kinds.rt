// The token at the front of bytes, kind by kind, and how many bytes it takes.
ghost use Rattle.std.specs.Prelude.{◌≡◌, ◌≤◌, ◌<◌, ◌-◌, ◌^◌, Some, ◌==◌};
ghost use Rattle.std.specs.Prelude.{IfOk, IfSome, IsTrue, false, length, SomeIff};
ghost use Rattle.std.specs.Option.{option_map};
ghost use Rattle.std.specs.List.{list_all};
ghost use Rattle.std.specs.Str.{str_to_ascii_lowercase};
ghost use Rattle.rpt_base.specs.Names.{is_name};
ghost use Rattle.sql_lex.specs.Tokens.{begins_word as begins, is_word_byte as word_byte};
ghost use Rattle.sql_lex.specs.Tokens.{is_word as word, starts, mark_of as mark_said};
ghost use Rattle.sql_lex.specs.Lexing.{with_digit as longer, number_of as number_said};
ghost use Rattle.sql_lex.specs.Lexing.{run_token as run_said, run_at as run_at_said};
ghost use Rattle.sql_lex.specs.Lexing.{text_of as text_said, text_token as text_token_said, closes};
ghost use Rattle.sql_lex.specs.Lexing.{quoted_token as quoted_said, quoted_of as quoted_of_said};
ghost use Rattle.sql_lex.specs.Lexing.{mark_token as mark_token_said, token_at as token_said};

use crate::runs::{before, begins_word, is_word_byte, same, skipped, word_run};
use crate::tokens::{Mark, TokenKind};
use rpt_base::limits::MAX_NAME_BYTES;
use rpt_base::{Memory, Name, Str, StrError};
use std::alloc::Global;

// The greatest number, which only a minus may stand before.
const MAX_NUMBER: u64 = 9223372036854775808;

const QUOTE: u8 = b'\'';

const DOUBLE_QUOTE: u8 = b'"';

// The token at the front, and how many bytes it takes.
#[tactic(auto, using(crate::proofs::Steps::at_end), unfolding(crate::specs::Lexing::token_at))]
pub fn token_at(alloc: Global, bytes: &[u8]) -> Result<Option<(TokenKind, usize)>, Memory>
    ensures { IfOk result (λ found. found ≡ token_said bytes.now) }
{
    match bytes.split_first() {
        None => Ok(None),
        Some((first, behind)) => {
            if is_word_byte(*first) {
                run_at(alloc, bytes)
            } else if *first == QUOTE {
                text_token(alloc, behind)
            } else if *first == DOUBLE_QUOTE {
                quoted_token(alloc, behind)
            } else {
                Ok(mark_token(bytes))
            }
        }
    }
}

// The word or the number at the front.
#[tactic(auto, unfolding(crate::specs::Lexing::run_at))]
fn run_at(alloc: Global, bytes: &[u8]) -> Result<Option<(TokenKind, usize)>, Memory>
    ensures { IfOk result (λ found. found ≡ run_at_said bytes.now) }
{
    let run = word_run(bytes);
    match run_token(alloc, run)? {
        Some(kind) => Ok(Some((kind, run.len()))),
        None => Ok(None),
    }
}

// The word or the number that a run is.
#[tactic(auto, using(crate::proofs::WordNames::word_name), unfolding(crate::specs::Lexing::run_token))]
fn run_token(alloc: Global, run: &[u8]) -> Result<Option<TokenKind>, Memory>
    ensures { IfOk result (λ found. found ≡ run_said run.now) }
{
    if is_word(run) {
        let word = lowered(alloc, run)?;
        return Ok(Some(TokenKind::Word(word)));
    }
    match number_of(run) {
        Some(number) => Ok(Some(TokenKind::Number(number))),
        None => Ok(None),
    }
}

// The text of a name's bytes, in lower case.
fn lowered(alloc: Global, bytes: &[u8]) -> Result<Str, Memory>
    requires { IsTrue (is_name bytes.now) }
    ensures { IfOk result (λ text. text ≡ str_to_ascii_lowercase bytes.now) }
{
    let name = Name::make(alloc, bytes)?;
    Str::from_text(alloc, name.as_str())
}

/// Whether the bytes are a word: an ASCII letter or `_`, then letters, digits and `_`, at most 63 bytes.
pub fn is_word(run: &[u8]) -> bool
    ensures { result ≡ word run.now }
{
    first_begins_word(run) && are_word_bytes(run) && run.len() <= MAX_NAME_BYTES
}

fn first_begins_word(run: &[u8]) -> bool
    ensures { result ≡ starts begins run.now }
{
    match run.split_first() {
        Some((first, _)) => begins_word(*first),
        None => false,
    }
}

fn are_word_bytes(run: &[u8]) -> bool
    ensures { result ≡ list_all word_byte run.now }
{
    run.iter().all(|b| is_word_byte(*b))
}

// The number that the bytes write, within the limit.
#[tactic(auto, using(crate::proofs::Steps::number_steps))]
fn number_of(bytes: &[u8]) -> Option<u64>
    ensures { result ≡ number_said bytes.now }
{
    if bytes.is_empty() {
        return None;
    }
    let mut value = 0;
    for b in bytes {
        if !b.is_ascii_digit() {
            return None;
        }
        value = with_digit(value, *b)?;
    }
    Some(value)
}

// The number with one digit more, within the limit.
fn with_digit(value: u64, digit: u8) -> Option<u64>
    requires value { value ≤ 9223372036854775808 }
    requires from { 48 ≤ digit }
    requires to { digit ≤ 57 }
    ensures { SomeIff result (longer value digit ≤ 9223372036854775808) (longer value digit) }
{
    if value > MAX_NUMBER / 10 {
        return None;
    }
    let next = value * 10 + u64::from(digit - b'0');
    if next <= MAX_NUMBER { Some(next) } else { None }
}

// The text behind its opening quote, and how many bytes it takes with both quotes.
#[tactic(auto, using(crate::proofs::Texts::text_plain))]
fn text_token(alloc: Global, bytes: &[u8]) -> Result<Option<(TokenKind, usize)>, Memory>
    ensures { IfOk result (λ found. found ≡ text_token_said (text_said false bytes.now)) }
{
    let plain = before(QUOTE, bytes);
    if is_closed(skipped(bytes, plain.len())) {
        return text_from(alloc, plain, plain.len() + 1);
    }
    match text_of(alloc, bytes)? {
        Some((text, size)) => text_from(alloc, text.as_slice(), size),
        None => Ok(None),
    }
}

// Whether a quote stands first, and no other behind it.
fn is_closed(bytes: &[u8]) -> bool
    ensures { result ≡ closes bytes.now }
{
    match bytes.split_first() {
        Some((first, rest)) => *first == QUOTE && !is_first(QUOTE, rest),
        None => false,
    }
}

// The token of a text, where it is UTF-8, and how many bytes it takes with its opening quote.
#[tactic(auto, using(crate::proofs::Steps::utf8_test, crate::proofs::Steps::utf8_test_fails))]
fn text_from(alloc: Global, text: &[u8], size: usize) -> Result<Option<(TokenKind, usize)>, Memory>
    requires { size < 2 ^ 64 - 1 }
    ensures { IfOk result (λ found. found ≡ text_token_said (Some (text.now, size))) }
{
    match Str::from_bytes(alloc, text) {
        Ok(text) => Ok(Some((TokenKind::Text(text), 1 + size))),
        Err(StrError::NotUtf8) => Ok(None),
        Err(StrError::Memory) => Err(Memory),
    }
}

// The text behind its opening quote with single quotes for the doubled, and how many bytes it takes with the closing one.
#[tactic(auto, using(crate::proofs::Steps::text_steps))]
fn text_of(alloc: Global, bytes: &[u8]) -> Result<Option<(Vec<u8>, usize)>, Memory>
    ensures text { IfOk result (λ found. option_map (λ f. (f.0.items, f.1)) found
        ≡ text_said false bytes.now) }
    ensures within { IfOk result (λ found. IfSome found (λ f. f.1 ≤ length bytes.now)) }
{
    let mut text = Vec::new(alloc);
    let mut quoted = false;
    for (i, b) in bytes.iter().enumerate() {
        if *b == QUOTE {
            if quoted {
                text.push(QUOTE)?;
            }
            quoted = !quoted;
        } else if quoted {
            return Ok(Some((text, i)));
        } else {
            text.push(*b)?;
        }
    }
    if quoted {
        Ok(Some((text, bytes.len())))
    } else {
        Ok(None)
    }
}

// The quoted name behind its opening quote, and how many bytes it takes with both quotes.
#[tactic(auto, unfolding(crate::specs::Lexing::quoted_token))]
fn quoted_token(alloc: Global, bytes: &[u8]) -> Result<Option<(TokenKind, usize)>, Memory>
    ensures { IfOk result (λ found. found ≡ quoted_said bytes.now) }
{
    let inner = before(DOUBLE_QUOTE, bytes);
    quoted_of(alloc, inner, skipped(bytes, inner.len()))
}

// The quoted name that these bytes are, where a quote stands first behind them.
fn quoted_of(
    alloc: Global,
    inner: &[u8],
    behind: &[u8],
) -> Result<Option<(TokenKind, usize)>, Memory>
    ensures { IfOk result (λ found. found ≡ quoted_of_said inner.now behind.now) }
{
    if is_first(DOUBLE_QUOTE, behind) && Name::fits(inner) {
        let name = lowered(alloc, inner)?;
        Ok(Some((TokenKind::Quoted(name), inner.len() + 2)))
    } else {
        Ok(None)
    }
}

// Whether this byte stands first.
fn is_first(byte: u8, bytes: &[u8]) -> bool
    ensures { result ≡ starts (λ b. b == byte) bytes.now }
{
    match bytes.split_first() {
        Some((first, _)) => *first == byte,
        None => false,
    }
}

// A mark of two bytes, or else of one, and how many bytes it takes.
#[tactic(auto, unfolding(crate::specs::Lexing::mark_token))]
fn mark_token(bytes: &[u8]) -> Option<(TokenKind, usize)>
    requires { 1 ≤ length bytes.now }
    ensures { result ≡ mark_token_said bytes.now }
{
    let pair = &bytes[..bytes.len().min(2)];
    if let Some(mark) = mark_of(pair) {
        return Some((TokenKind::Mark(mark), pair.len()));
    }
    match mark_of(&bytes[..1]) {
        Some(mark) => Some((TokenKind::Mark(mark), 1)),
        None => None,
    }
}

// The mark that the bytes write.
fn mark_of(bytes: &[u8]) -> Option<Mark>
    ensures { result ≡ mark_said bytes.now }
{
    if same(bytes, b"(") {
        Some(Mark::LeftParen)
    } else if same(bytes, b")") {
        Some(Mark::RightParen)
    } else if same(bytes, b",") {
        Some(Mark::Comma)
    } else if same(bytes, b";") {
        Some(Mark::Semicolon)
    } else if same(bytes, b".") {
        Some(Mark::Dot)
    } else if same(bytes, b"*") {
        Some(Mark::Star)
    } else if same(bytes, b"-") {
        Some(Mark::Minus)
    } else if same(bytes, b"=") {
        Some(Mark::Eq)
    } else if same(bytes, b"<>") {
        Some(Mark::Ne)
    } else if same(bytes, b"!=") {
        Some(Mark::Ne)
    } else if same(bytes, b"<") {
        Some(Mark::Lt)
    } else if same(bytes, b"<=") {
        Some(Mark::Le)
    } else if same(bytes, b">") {
        Some(Mark::Gt)
    } else if same(bytes, b">=") {
        Some(Mark::Ge)
    } else {
        None
    }
}
