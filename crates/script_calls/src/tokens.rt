// The tokens of a script.
use case_text::put;
use rpt_base::Str;
use sql_lex::{Token, TokenKind};

/// Puts a line for each token: its place, and what it is.
pub fn put_tokens(tokens: &[Token], given: &mut String) {
    for token in tokens {
        put(given, format_args!("{}..{} ", token.start, token.end));
        match &token.kind {
            TokenKind::Word(word) => put_written("word ", word, given),
            TokenKind::Quoted(name) => put_written("quoted ", name, given),
            TokenKind::Number(number) => put(given, format_args!("number {number}")),
            TokenKind::Text(written) => put_written("text ", written, given),
            TokenKind::Mark(mark) => put(given, format_args!("{mark:?}")),
        }
        put(given, "\n");
    }
}

fn put_written(word: &str, written: &Str, given: &mut String) {
    put(given, word);
    put(given, written.as_str());
}
