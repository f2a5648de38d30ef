// The tokens of a script's bytes: at each place the longest item that stands there.
ghost use Rattle.std.specs.Prelude.{◌≡◌, ◌≤◌, ◌-◌, ◌++◌, ℕ, IfOk, OnOk, Err, length};
ghost use Rattle.sql_lex.specs.declared.errors.LexError.TheVariants as error;
ghost use Rattle.sql_lex.specs.Tokens.{IsTokenList, IsBadAt, AreTokens, is_blank as blank};
ghost use Rattle.sql_lex.specs.Tokens.{starts, given_tokens, without_order_mark};
ghost use Rattle.sql_lex.specs.Lexing.{item_at as item_said, lexed as lexed_said};
ghost use Rattle.sql_lex.specs.Lexing.{Gives, GivesNoOther, IsRefusedAt};

use crate::errors::LexError;
use crate::kinds::token_at;
use crate::runs::{before, skipped};
use crate::tokens::{Token, TokenKind};
use rpt_base::Memory;
use std::alloc::Global;

/// The tokens of a script, from left to right.
///
/// White space and comments give none, and a leading byte order mark is passed over; its three bytes count in the offsets.
/// `At` comes exactly where the bytes are not items to their end, with the offset, from 0, of the first byte at which none
/// stands.
pub fn lex(alloc: Global, bytes: &[u8]) -> Result<Vec<Token>, LexError>
    requires { length bytes.now ≤ 1048576 }
    ensures tokens { IfOk result (λ tokens. IsTokenList bytes.now tokens.items) }
    ensures only { GivesNoOther (λ tokens. tokens.items) bytes.now result }
    ensures bad { (offset : ℕ) → result ≡ Err (LexError.At offset) → IsBadAt bytes.now offset }
    ensures bad_only { (offset : ℕ) → IsBadAt bytes.now offset → IsRefusedAt offset result }
    ensures well_formed { IfOk result (λ tokens. AreTokens (length bytes.now) tokens.items) }
    ensures lexed { Gives (λ tokens. tokens.items) (lexed_said bytes.now) result }
{
    tokens_of(alloc, bytes)
}

#[tactic(auto, using(crate::proofs::Steps::token_steps), unfolding(crate::specs::Lexing::lexed))]
fn tokens_of(alloc: Global, bytes: &[u8]) -> Result<Vec<Token>, LexError>
    requires { length bytes.now ≤ 1048576 }
    ensures { Gives (λ tokens. tokens.items) (lexed_said bytes.now) result }
{
    let mut rest = behind_order_mark(bytes);
    let mut tokens = Vec::new(alloc);
    while !rest.is_empty() {
        let start = offset_of(bytes, rest);
        let Some((kind, size)) = item_at(alloc, rest)? else {
            return Err(LexError::At { offset: start });
        };
        rest = skipped(rest, size);
        push_given(&mut tokens, kind, start, offset_of(bytes, rest))?;
    }
    Ok(tokens)
}

// The offset at which the rest of the bytes begins.
fn offset_of(bytes: &[u8], rest: &[u8]) -> u32
    requires few { length bytes.now ≤ 1048576 }
    requires within { length rest.now ≤ length bytes.now }
    ensures { result ≡ length bytes.now - length rest.now }
{
    (bytes.len() - rest.len()) as u32
}

// Adds the token that an item gives, if it gives one.
fn push_given(
    tokens: &mut Vec<Token>,
    kind: Option<TokenKind>,
    start: u32,
    end: u32,
) -> Result<(), Memory>
    ensures { OnOk result (tokens.new.items ≡ tokens.old.items ++ given_tokens kind start end) }
{
    let Some(kind) = kind else {
        return Ok(());
    };
    tokens.push(Token { kind, start, end })?;
    Ok(())
}

// The bytes behind a leading byte order mark.
fn behind_order_mark(bytes: &[u8]) -> &[u8]
    ensures { result.now ≡ without_order_mark bytes.now }
{
    if bytes.starts_with(b"\xEF\xBB\xBF") {
        &bytes[3..]
    } else {
        bytes
    }
}

// The item at the front, which may give a token, and how many bytes it takes.
#[tactic(auto, unfolding(crate::specs::Lexing::item_at))]
fn item_at(alloc: Global, bytes: &[u8]) -> Result<Option<(Option<TokenKind>, usize)>, Memory>
    ensures { IfOk result (λ found. found ≡ item_said bytes.now) }
{
    if is_blank_first(bytes) {
        return Ok(Some((None, 1)));
    }
    if bytes.starts_with(b"--") {
        return Ok(Some((None, 2 + before(b'\n', &bytes[2..]).len())));
    }
    match token_at(alloc, bytes)? {
        Some((kind, size)) => Ok(Some((Some(kind), size))),
        None => Ok(None),
    }
}

fn is_blank_first(bytes: &[u8]) -> bool
    ensures { result ≡ starts blank bytes.now }
{
    match bytes.split_first() {
        Some((first, _)) => is_blank(*first),
        None => false,
    }
}

fn is_blank(b: u8) -> bool
    ensures { result ≡ blank b }
{
    b == b'\t' || b == b'\n' || b == b'\r' || b == b' '
}
