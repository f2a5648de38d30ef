// The pieces that a printed script is made of, put behind a text. A space follows each.
ghost use Rattle.std.specs.Prelude.{◌≡◌, ◌≤◌, ◌++◌, ◌∷◌, ℕ, IsTrue, OnOk};
ghost use Rattle.sql_lex.specs.Tokens.{is_word, doubled_quotes};
ghost use Rattle.sql_print.specs.Pieces.{word, name, number, magnitude, text, mark, mark_text};
ghost use Rattle.sql_print.specs.Printed.{int_pieces, value_pieces, relation_pieces};
ghost use Rattle.sql_print.specs.Printed.{column_pieces, expr_pieces, not_pieces};
ghost use Rattle.sql_print.specs.Puts.{Puts};

use itoa::Buffer;
use rpt_base::{Memory, Name, Str, Value};
use sql_lex::Mark;
use sql_text::{ColumnName, Expr};

fn put(out: &mut Vec<u8>, front: &[u8], middle: &[u8], back: &[u8]) -> Result<(), Memory>
    ensures { OnOk result (out.new.items ≡ out.old.items ++ front.now ++ middle.now ++ back.now) }
{
    out.extend_from_slice(front)?;
    out.extend_from_slice(middle)?;
    out.extend_from_slice(back)?;
    Ok(())
}

/// A keyword or a type, in capitals.
pub fn put_word(out: &mut Vec<u8>, written: &[u8]) -> Result<(), Memory>
    requires { IsTrue (is_word written.now) }
    ensures { OnOk result (Puts (λ more. word written.now ∷ more) out.old.items out.new.items) }
{
    put(out, b"", written, b" ")?;
    Ok(())
}

/// A name in double quotes.
pub fn put_name(out: &mut Vec<u8>, written: &Name) -> Result<(), Memory>
    ensures { OnOk result (Puts (λ more. name written.now ∷ more) out.old.items out.new.items) }
{
    put(out, b"\"", written.bytes(), b"\" ")?;
    Ok(())
}

fn text_of(mark: Mark) -> &'static [u8]
    ensures { result.now ≡ mark_text mark }
{
    match mark {
        Mark::LeftParen => b"(",
        Mark::RightParen => b")",
        Mark::Comma => b",",
        Mark::Semicolon => b";",
        Mark::Dot => b".",
        Mark::Star => b"*",
        Mark::Minus => b"-",
        Mark::Eq => b"=",
        Mark::Ne => b"<>",
        Mark::Lt => b"<",
        Mark::Le => b"<=",
        Mark::Gt => b">",
        Mark::Ge => b">=",
    }
}

/// A mark.
pub fn put_mark(out: &mut Vec<u8>, written: Mark) -> Result<(), Memory>
    ensures { OnOk result (Puts (λ more. mark written ∷ more) out.old.items out.new.items) }
{
    put(out, b"", text_of(written), b" ")?;
    Ok(())
}

fn put_number(out: &mut Vec<u8>, written: u64) -> Result<(), Memory>
    requires { written ≤ 9223372036854775807 }
    ensures { OnOk result (Puts (λ more. number written ∷ more) out.old.items out.new.items) }
{
    let mut buffer = Buffer::new();
    put(out, b"", buffer.format(written).as_bytes(), b" ")?;
    Ok(())
}

fn put_magnitude(out: &mut Vec<u8>, written: u64) -> Result<(), Memory>
    requires { written ≤ 9223372036854775808 }
    ensures { OnOk result (Puts (λ more. magnitude written ∷ more) out.old.items out.new.items) }
{
    let mut buffer = Buffer::new();
    put(out, b"", buffer.format(written).as_bytes(), b" ")?;
    Ok(())
}

// A text with each quote doubled.
fn put_doubled(out: &mut Vec<u8>, written: &[u8]) -> Result<(), Memory>
    ensures { OnOk result (out.new.items ≡ out.old.items ++ doubled_quotes written.now) }
{
    let mut rest = written;
    while let Some((first, behind)) = rest.split_first() {
        if *first == b'\'' {
            out.extend_from_slice(b"''")?;
        } else {
            out.extend_from_slice(&[*first])?;
        }
        rest = behind;
    }
    Ok(())
}

/// A text in quotes.
pub fn put_text(out: &mut Vec<u8>, written: &Str) -> Result<(), Memory>
    ensures { OnOk result (Puts (λ more. text written.now ∷ more) out.old.items out.new.items) }
{
    put(out, b"'", b"", b"")?;
    put_doubled(out, written.bytes())?;
    put(out, b"' ", b"", b"")?;
    Ok(())
}

fn put_int(out: &mut Vec<u8>, written: i64) -> Result<(), Memory>
    ensures { OnOk result (Puts (int_pieces written) out.old.items out.new.items) }
{
    if written >= 0 {
        put_number(out, written as u64)?;
        return Ok(());
    }
    put_mark(out, Mark::Minus)?;
    put_magnitude(out, written.unsigned_abs())?;
    Ok(())
}

/// A value.
pub fn put_value(out: &mut Vec<u8>, value: &Value) -> Result<(), Memory>
    ensures { OnOk result (Puts (value_pieces value.now) out.old.items out.new.items) }
{
    match value {
        Value::Int(written) => {
            put_int(out, *written)?;
            Ok(())
        }
        Value::Text(written) => {
            put_text(out, written)?;
            Ok(())
        }
    }
}

fn put_relation(out: &mut Vec<u8>, relation: &Option<Name>) -> Result<(), Memory>
    ensures { OnOk result (Puts (relation_pieces relation.now) out.old.items out.new.items) }
{
    match relation {
        Some(relation) => {
            put_name(out, relation)?;
            put_mark(out, Mark::Dot)?;
            Ok(())
        }
        None => Ok(()),
    }
}

/// A column.
pub fn put_column(out: &mut Vec<u8>, column: &ColumnName) -> Result<(), Memory>
    ensures { OnOk result (Puts (column_pieces column.now) out.old.items out.new.items) }
{
    put_relation(out, &column.relation)?;
    put_name(out, &column.column)?;
    Ok(())
}

/// An operand.
pub fn put_expr(out: &mut Vec<u8>, expr: &Expr) -> Result<(), Memory>
    ensures { OnOk result (Puts (expr_pieces expr.now) out.old.items out.new.items) }
{
    match expr {
        Expr::Column(column) => {
            put_column(out, column)?;
            Ok(())
        }
        Expr::Literal { at: _, value } => {
            put_value(out, value)?;
            Ok(())
        }
    }
}

/// NOT, where something is negated.
pub fn put_not(out: &mut Vec<u8>, negated: bool) -> Result<(), Memory>
    ensures { OnOk result (Puts (not_pieces negated) out.old.items out.new.items) }
{
    if negated {
        put_word(out, b"NOT")?;
    }
    Ok(())
}
