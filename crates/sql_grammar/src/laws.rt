// What the definitions of sentences and refusals say of all tokens.
ghost use Rattle.std.specs.Prelude.{ℕ, List};
ghost use Rattle.sql_lex.specs.declared.tokens.Token.{Token as Tok};
ghost use Rattle.sql_grammar.specs.Sentence.{HasReading, HasOneReading};

/// The theorem that all tokens have a reading; the call does nothing. Within any number of levels, they are a sentence with
/// its tree, or a syntax error stands at a place, or a token there opens a level too many.
pub fn has_a_reading()
    ensures there { (levels end : ℕ) (tokens : List Tok) → HasReading levels tokens end }
{}

/// The theorem that no tokens have a second reading; the call does nothing. So a sentence has one tree and is never refused,
/// and what is refused is refused for one reason at one place.
pub fn has_one_reading()
    ensures one { (levels end : ℕ) (tokens : List Tok) → HasOneReading levels tokens end }
{}
