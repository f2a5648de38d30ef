// What the definitions of tokens say of one another.
ghost use Rattle.std.specs.Prelude.{◌≡◌, ℕ, List, Ok, Err, IsTrue};
ghost use Rattle.rpt_base.specs.Names.{is_name};
ghost use Rattle.sql_lex.specs.declared.tokens.Token.{Token as Tok};
ghost use Rattle.sql_lex.specs.declared.errors.LexError.TheVariants as error;
ghost use Rattle.sql_lex.specs.Tokens.{is_word, IsTokenList, IsBadAt};
ghost use Rattle.sql_lex.specs.Lexing.{lexed};

/// The theorem on tokens, for all bytes; the call does nothing. The tokens of bytes are what `lexed` gives, and where it gives
/// an offset, that is the one place at which no item stands. It gives one or the other: for want of memory it never fails.
pub fn tokens_are_read()
    ensures listed { (bytes : List ℕ) (tokens : List Tok) → IsTokenList bytes tokens
        → lexed bytes ≡ Ok tokens }
    ensures is_listed { (bytes : List ℕ) (tokens : List Tok) → lexed bytes ≡ Ok tokens
        → IsTokenList bytes tokens }
    ensures refused { (bytes : List ℕ) (offset : ℕ) → IsBadAt bytes offset
        → lexed bytes ≡ Err (error.At offset) }
    ensures is_refused { (bytes : List ℕ) (offset : ℕ) → lexed bytes ≡ Err (error.At offset)
        → IsBadAt bytes offset }
    ensures never_memory { (bytes : List ℕ) → lexed bytes ≡ Err error.Memory → ⊥ }
{}

/// The theorem that a word is a name; the call does nothing.
pub fn words_are_names()
    ensures named { (bytes : List ℕ) → IsTrue (is_word bytes) → IsTrue (is_name bytes) }
{}
