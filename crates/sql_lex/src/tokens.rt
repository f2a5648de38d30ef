// The tokens of a script.
use rpt_base::Str;

/// A mark of one or two bytes. `<>` and `!=` are one mark.
#[derive(Clone, Copy, Debug, PartialEq, Eq)]
pub enum Mark {
    LeftParen,
    RightParen,
    Comma,
    Semicolon,
    Dot,
    Star,
    Minus,
    Eq,
    Ne,
    Lt,
    Le,
    Gt,
    Ge,
}

/// What a token is.
#[derive(Drop)]
pub enum TokenKind {
    /// A keyword or a name, in lower case: an ASCII letter or `_`, then letters, digits and `_`, at most 63 bytes.
    Word(Str),
    /// A name between double quotes, without them, its ASCII letters in lower case.
    Quoted(Str),
    /// A number of at most 9223372036854775808, the greatest that a minus may stand before.
    Number(u64),
    /// A text, without its quotes and with single ones in place of the doubled.
    Text(Str),
    Mark(Mark),
}

/// A token, and the bytes of the script from `start` up to `end` that write it, as offsets from 0.
#[derive(Drop)]
pub struct Token {
    pub kind: TokenKind,
    pub start: u32,
    pub end: u32,
}
