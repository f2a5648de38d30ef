//! The tokens of a script's bytes: words, quoted names, numbers, texts and marks, each with its place.
//!
//! `lex` gives the tokens, or says at which offset no item of a script stands. The layers above rely on this: unless memory
//! runs out it is `Ok` exactly for the bytes that are items to their end, and then with their one list of tokens, whose places
//! rise and whose words, names and numbers are in their limits. A refusal names the first place where no item stands.
#![tactic(auto)]

mod errors;
mod kinds;
mod laws;
mod lexing;
mod runs;
mod tokens;

pub use errors::LexError;
pub use kinds::is_word;
pub use laws::{tokens_are_read, words_are_names};
pub use lexing::lex;
pub use tokens::{Mark, Token, TokenKind};
