// The longest runs of bytes that go on.
ghost use Rattle.std.specs.Prelude.{◌≡◌, ◌≤◌, length, drop};
ghost use Rattle.std.specs.List.{take_while};
ghost use Rattle.std.specs.Str.{bytes_eq};
ghost use Rattle.sql_lex.specs.Tokens.{begins_word as begins, is_word_byte as word_byte};
ghost use Rattle.sql_lex.specs.Lexing.{before as before_said};

pub fn begins_word(b: u8) -> bool
    ensures { result ≡ begins b }
{
    b.is_ascii_alphabetic() || b == b'_'
}

pub fn is_word_byte(b: u8) -> bool
    ensures { result ≡ word_byte b }
{
    begins_word(b) || b.is_ascii_digit()
}

// The longest run of letters, digits and underscores.
pub fn word_run(bytes: &[u8]) -> &[u8]
    ensures { result.now ≡ take_while word_byte bytes.now }
{
    for (i, b) in bytes.iter().enumerate() {
        if !is_word_byte(*b) {
            return &bytes[..i];
        }
    }
    bytes
}

// What stands before the first such byte, or all where there is none.
pub fn before(byte: u8, bytes: &[u8]) -> &[u8]
    ensures { result.now ≡ before_said byte bytes.now }
{
    for (i, b) in bytes.iter().enumerate() {
        if *b == byte {
            return &bytes[..i];
        }
    }
    bytes
}

// The bytes behind so many.
pub fn skipped(bytes: &[u8], size: usize) -> &[u8]
    requires { size ≤ length bytes.now }
    ensures { result.now ≡ drop size bytes.now }
{
    &bytes[size..]
}

pub fn same(a: &[u8], b: &[u8]) -> bool
    ensures { result ≡ bytes_eq a.now b.now }
{
    a == b
}
