// What the grammar knows of a token.
ghost use Rattle.std.specs.Prelude.{◌≡◌, map};
ghost use Rattle.std.specs.List.{list_all};
ghost use Rattle.std.specs.Str.{bytes_eq};
ghost use Rattle.sql_grammar.specs.Kinds.{kind_of, kind_of_word as kind_said};
ghost use Rattle.sql_grammar.specs.Kinds.{kind_of_number as number_said};
ghost use Rattle.sql_grammar.specs.Kinds.{kind_of_mark as mark_said, is_name_in_lower_case};
ghost use Rattle.sql_grammar.specs.Kinds.{is_word_in_lower_case, is_not_capital};
ghost use Rattle.sql_grammar.specs.Words.{kind_among};

use rpt_base::Name;
use sql_lex::{Mark, Token, TokenKind, is_word};

/// What the grammar knows of a token: a keyword stands for a word of that spelling.
#[derive(Clone, Copy, PartialEq, Eq)]
pub enum Kind {
    And,
    As,
    Between,
    Create,
    From,
    In,
    Inner,
    Join,
    Like,
    Not,
    On,
    Or,
    Select,
    Table,
    Where,
    /// A reserved word that the grammar has no place for.
    Reserved,
    /// The words of types, which are names too.
    Int,
    Integer,
    Bigint,
    TextType,
    /// A quoted name, or a word that is neither reserved nor a type's.
    Name,
    /// A number of at most 9223372036854775807.
    Number,
    /// 9223372036854775808, which is a literal only behind a minus.
    Greatest,
    Text,
    LeftParen,
    RightParen,
    Comma,
    Semicolon,
    Dot,
    Star,
    Minus,
    Eq,
    Ne,
    Lt,
    Le,
    Gt,
    Ge,
    /// What a script's bytes never give: a word or a name that is none or isn't in lower case, or a greater number.
    Other,
}

/// The kind of a token.
#[tactic(auto, unfolding(crate::specs::Kinds::kind_of))]
pub fn kind_of(token: &Token) -> Kind
    ensures { result ≡ kind_of token.now }
{
    match &token.kind {
        TokenKind::Word(word) => {
            if is_lower_word(word.bytes()) {
                kind_of_word(word.bytes())
            } else {
                Kind::Other
            }
        }
        TokenKind::Quoted(name) => {
            if is_lower_name(name.bytes()) {
                Kind::Name
            } else {
                Kind::Other
            }
        }
        TokenKind::Number(number) => kind_of_number(*number),
        TokenKind::Text(_) => Kind::Text,
        TokenKind::Mark(mark) => kind_of_mark(*mark),
    }
}

// Whether the bytes are a word in lower case.
fn is_lower_word(bytes: &[u8]) -> bool
    ensures { result ≡ is_word_in_lower_case bytes.now }
{
    is_word(bytes) && has_no_capital(bytes)
}

// Whether the bytes are a name in lower case.
fn is_lower_name(bytes: &[u8]) -> bool
    ensures { result ≡ is_name_in_lower_case bytes.now }
{
    Name::fits(bytes) && has_no_capital(bytes)
}

fn has_no_capital(bytes: &[u8]) -> bool
    ensures { result ≡ list_all is_not_capital bytes.now }
{
    bytes.iter().all(|b| *b < b'A' || *b > b'Z')
}

fn same(a: &[u8], b: &[u8]) -> bool
    ensures { result ≡ bytes_eq a.now b.now }
{
    a == b
}

// The words that are no names, or more than names.
const WORDS: [(&[u8], Kind); 44] = [
    (b"and", Kind::And),
    (b"as", Kind::As),
    (b"between", Kind::Between),
    (b"create", Kind::Create),
    (b"from", Kind::From),
    (b"in", Kind::In),
    (b"inner", Kind::Inner),
    (b"join", Kind::Join),
    (b"like", Kind::Like),
    (b"not", Kind::Not),
    (b"on", Kind::On),
    (b"or", Kind::Or),
    (b"select", Kind::Select),
    (b"table", Kind::Table),
    (b"where", Kind::Where),
    (b"int", Kind::Int),
    (b"integer", Kind::Integer),
    (b"bigint", Kind::Bigint),
    (b"text", Kind::TextType),
    (b"asc", Kind::Reserved),
    (b"by", Kind::Reserved),
    (b"cross", Kind::Reserved),
    (b"desc", Kind::Reserved),
    (b"distinct", Kind::Reserved),
    (b"except", Kind::Reserved),
    (b"exists", Kind::Reserved),
    (b"fetch", Kind::Reserved),
    (b"full", Kind::Reserved),
    (b"group", Kind::Reserved),
    (b"having", Kind::Reserved),
    (b"intersect", Kind::Reserved),
    (b"is", Kind::Reserved),
    (b"left", Kind::Reserved),
    (b"limit", Kind::Reserved),
    (b"natural", Kind::Reserved),
    (b"null", Kind::Reserved),
    (b"offset", Kind::Reserved),
    (b"order", Kind::Reserved),
    (b"outer", Kind::Reserved),
    (b"right", Kind::Reserved),
    (b"union", Kind::Reserved),
    (b"using", Kind::Reserved),
    (b"window", Kind::Reserved),
    (b"with", Kind::Reserved),
];

// The kind beside the first of these words that the word is, or else that of a name.
fn kind_among(word: &[u8], mut words: &[(&[u8], Kind)]) -> Kind
    ensures { result ≡ kind_among (map (λ other. (other.0.now, other.1)) words.entry.now)
        Kind.Name word.now }
{
    while let [other, rest @ ..] = words {
        if same(word, other.0) {
            return other.1;
        }
        words = rest;
    }
    Kind::Name
}

// The kind of a word.
fn kind_of_word(word: &[u8]) -> Kind
    ensures { result ≡ kind_said word.now }
{
    kind_among(word, &WORDS)
}

fn kind_of_number(number: u64) -> Kind
    ensures { result ≡ number_said number }
{
    if number <= 9_223_372_036_854_775_807 {
        Kind::Number
    } else if number == 9_223_372_036_854_775_808 {
        Kind::Greatest
    } else {
        Kind::Other
    }
}

fn kind_of_mark(mark: Mark) -> Kind
    ensures { result ≡ mark_said mark }
{
    match mark {
        Mark::LeftParen => Kind::LeftParen,
        Mark::RightParen => Kind::RightParen,
        Mark::Comma => Kind::Comma,
        Mark::Semicolon => Kind::Semicolon,
        Mark::Dot => Kind::Dot,
        Mark::Star => Kind::Star,
        Mark::Minus => Kind::Minus,
        Mark::Eq => Kind::Eq,
        Mark::Ne => Kind::Ne,
        Mark::Lt => Kind::Lt,
        Mark::Le => Kind::Le,
        Mark::Gt => Kind::Gt,
        Mark::Ge => Kind::Ge,
    }
}
