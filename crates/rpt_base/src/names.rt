// Names of tables and columns.
ghost use Rattle.std.specs.Prelude.{◌≡◌, IsTrue, IfOk};
ghost use Rattle.std.specs.Str.{IsUtf8, is_utf8, str_to_ascii_lowercase};
ghost use Rattle.std.specs.List.{list_all};
ghost use Rattle.rpt_base.specs.Names.{is_name, is_name_byte};

use crate::limits::MAX_NAME_BYTES;
use crate::texts::Memory;
use std::alloc::Global;
use std::marker::Model;
use std::str;

/// A name of a table or a column, which contracts see as the list of its bytes.
///
/// It has 1 to 63 bytes of UTF-8, none of them below 32, none 127 and no double quote, and its ASCII letters are in lower
/// case. So names are equal exactly where their bytes are.
#[derive(Drop)]
pub struct Name {
    text: String,
}

impl Model for Name {
    ghost use Rattle.std.specs.Prelude.{◌≡◌, List, ℕ, IsTrue, string_bytes};
    ghost use Rattle.std.specs.Str.{str_to_ascii_lowercase};
    ghost use Rattle.rpt_base.specs.Names.{is_name};

    ghost Value = { List ℕ };

    ghost view = { λ n. string_bytes n.text };

    ghost invariant = { λ n. IsTrue (is_name (string_bytes n.text))
        × (str_to_ascii_lowercase (string_bytes n.text) ≡ string_bytes n.text) };
}

impl Name {
    /// Whether these bytes may be a name.
    pub fn fits(bytes: &[u8]) -> bool
        ensures { result ≡ is_name bytes.now }
    {
        if bytes.is_empty() || bytes.len() > MAX_NAME_BYTES {
            return false;
        }
        are_name_bytes(bytes) && is_utf8(bytes)
    }

    /// The name of these bytes, with A to Z made a to z.
    pub fn make(alloc: Global, bytes: &[u8]) -> Result<Name, Memory>
        requires { IsTrue (is_name bytes.now) }
        ensures { IfOk result (λ n. n ≡ str_to_ascii_lowercase bytes.now) }
    {
        let Ok(text) = str::from_utf8(bytes) else {
            unreachable!()
        };
        let text = text.to_ascii_lowercase(alloc)?;
        Ok(Name { text })
    }

    /// The bytes of the name.
    pub fn bytes(&self) -> &[u8]
        ensures bytes { result.now ≡ self.now }
        ensures name { IsTrue (is_name self.now) }
        ensures utf8 { IsUtf8 self.now }
        ensures lower { str_to_ascii_lowercase self.now ≡ self.now }
    {
        self.text.as_str().as_bytes()
    }

    /// The name as text.
    pub fn as_str(&self) -> &str
        ensures { result.now ≡ self.now }
    {
        self.text.as_str()
    }

    /// The same name once more.
    pub fn copy(&self, alloc: Global) -> Result<Name, Memory>
        ensures { IfOk result (λ n. n ≡ self.now) }
    {
        let text = String::from_str(alloc, self.text.as_str())?;
        Ok(Name { text })
    }
}

// Whether there is no control byte and no double quote.
fn are_name_bytes(bytes: &[u8]) -> bool
    ensures { result ≡ list_all is_name_byte bytes.now }
{
    bytes.iter().all(|b| *b >= b' ' && *b != b'"' && *b != 127)
}

// Whether the bytes are UTF-8.
fn is_utf8(bytes: &[u8]) -> bool
    ensures { result ≡ is_utf8 bytes.now }
{
    str::from_utf8(bytes).is_ok()
}
