// Printed conditions, with parentheses only where they are needed.
ghost use Rattle.std.specs.Prelude.{◌≡◌, IsTrue, OnOk};
ghost use Rattle.sql_lex.specs.Tokens.{is_word};
ghost use Rattle.sql_print.specs.Pieces.{word};
ghost use Rattle.sql_print.specs.Printed.{or_is_wrapped as or_wrapped};
ghost use Rattle.sql_print.specs.Printed.{and_is_wrapped as and_wrapped, op_mark, cond_pieces};
ghost use Rattle.sql_print.specs.Printed.{members_pieces, joined_pieces, compare_pieces};
ghost use Rattle.sql_print.specs.Printed.{between_pieces, list_pieces, like_pieces};
ghost use Rattle.sql_print.specs.Printed.{value_pieces, behind_commas, between_commas};
ghost use Rattle.sql_print.specs.Puts.{Puts};

use crate::pieces::{put_expr, put_mark, put_not, put_text, put_value, put_word};
use rpt_base::{Comparison, Memory, Str, Value};
use sql_lex::Mark;
use sql_text::{Cond, Expr};

/// What a condition stands in.
#[derive(Clone, Copy, PartialEq, Eq)]
pub enum Room {
    /// Nothing.
    Whole,
    /// An OR.
    InOr,
    /// An AND or a NOT.
    InAnd,
}

fn or_is_wrapped(room: Room) -> bool
    ensures { result ≡ or_wrapped room }
{
    match room {
        Room::Whole => false,
        Room::InOr => true,
        Room::InAnd => true,
    }
}

fn and_is_wrapped(room: Room) -> bool
    ensures { result ≡ and_wrapped room }
{
    match room {
        Room::Whole => false,
        Room::InOr => false,
        Room::InAnd => true,
    }
}

fn mark_of(op: Comparison) -> Mark
    ensures { result ≡ op_mark op }
{
    match op {
        Comparison::Eq => Mark::Eq,
        Comparison::Ne => Mark::Ne,
        Comparison::Lt => Mark::Lt,
        Comparison::Le => Mark::Le,
        Comparison::Gt => Mark::Gt,
        Comparison::Ge => Mark::Ge,
    }
}

// The values behind the first.
fn put_more_values(out: &mut Vec<u8>, values: &[Value]) -> Result<(), Memory>
    ensures { OnOk result (Puts (behind_commas value_pieces values.now)
        out.old.items out.new.items) }
{
    let mut rest = values;
    while let Some((next, behind)) = rest.split_first() {
        put_mark(out, Mark::Comma)?;
        put_value(out, next)?;
        rest = behind;
    }
    Ok(())
}

fn put_values(out: &mut Vec<u8>, values: &[Value]) -> Result<(), Memory>
    ensures { OnOk result (Puts (between_commas value_pieces values.now)
        out.old.items out.new.items) }
{
    match values.split_first() {
        Some((first, more)) => {
            put_value(out, first)?;
            put_more_values(out, more)?;
            Ok(())
        }
        None => Ok(()),
    }
}

fn put_compare(out: &mut Vec<u8>, op: Comparison, left: &Expr, right: &Expr) -> Result<(), Memory>
    ensures { OnOk result (Puts (compare_pieces op left.now right.now)
        out.old.items out.new.items) }
{
    put_expr(out, left)?;
    put_mark(out, mark_of(op))?;
    put_expr(out, right)?;
    Ok(())
}

fn put_between(
    out: &mut Vec<u8>,
    operand: &Expr,
    negated: bool,
    low: &Expr,
    high: &Expr,
) -> Result<(), Memory>
    ensures { OnOk result (Puts (between_pieces operand.now negated low.now high.now)
        out.old.items out.new.items) }
{
    put_expr(out, operand)?;
    put_not(out, negated)?;
    put_word(out, b"BETWEEN")?;
    put_expr(out, low)?;
    put_word(out, b"AND")?;
    put_expr(out, high)?;
    Ok(())
}

fn put_in_list(
    out: &mut Vec<u8>,
    operand: &Expr,
    negated: bool,
    values: &[Value],
) -> Result<(), Memory>
    ensures { OnOk result (Puts (list_pieces operand.now negated values.now)
        out.old.items out.new.items) }
{
    put_expr(out, operand)?;
    put_not(out, negated)?;
    put_word(out, b"IN")?;
    put_mark(out, Mark::LeftParen)?;
    put_values(out, values)?;
    put_mark(out, Mark::RightParen)?;
    Ok(())
}

fn put_like(out: &mut Vec<u8>, operand: &Expr, negated: bool, pattern: &Str) -> Result<(), Memory>
    ensures { OnOk result (Puts (like_pieces operand.now negated pattern.now)
        out.old.items out.new.items) }
{
    put_expr(out, operand)?;
    put_not(out, negated)?;
    put_word(out, b"LIKE")?;
    put_text(out, pattern)?;
    Ok(())
}

/// A condition, in parentheses where it needs them.
#[cycle(put)]
pub fn put_cond(out: &mut Vec<u8>, room: Room, cond: &Cond) -> Result<(), Memory>
    ensures { OnOk result (Puts (cond_pieces cond.now room) out.old.items out.new.items) }
{
    match cond {
        Cond::And(all) => {
            let wrapped = and_is_wrapped(room);
            put_joined(out, wrapped, b"AND", Room::InAnd, all.as_slice())
        }
        Cond::Or(any) => {
            let wrapped = or_is_wrapped(room);
            put_joined(out, wrapped, b"OR", Room::InOr, any.as_slice())
        }
        Cond::Not { at: _, inner } => {
            put_word(out, b"NOT")?;
            put_cond(out, Room::InAnd, inner.get())
        }
        Cond::Compare {
            at: _,
            op,
            left,
            right,
        } => put_compare(out, *op, left, right),
        Cond::Between {
            at: _,
            negated,
            operand,
            low,
            high,
        } => put_between(out, operand, *negated, low, high),
        Cond::InList {
            at: _,
            negated,
            operand,
            values,
        } => put_in_list(out, operand, *negated, values.as_slice()),
        Cond::Like {
            at: _,
            negated,
            operand,
            pattern,
        } => put_like(out, operand, *negated, pattern),
    }
}

// Conditions with a word between two, in parentheses where they are wrapped.
#[cycle(put)]
fn put_joined(
    out: &mut Vec<u8>,
    wrapped: bool,
    joining: &[u8],
    room: Room,
    members: &[Cond],
) -> Result<(), Memory>
    requires { IsTrue (is_word joining.now) }
    ensures { OnOk result (Puts (joined_pieces wrapped joining.now room members.now)
        out.old.items out.new.items) }
{
    if wrapped {
        put_mark(out, Mark::LeftParen)?;
        put_members(out, joining, room, members)?;
        put_mark(out, Mark::RightParen)?;
        return Ok(());
    }
    put_members(out, joining, room, members)
}

// Conditions with a word between two.
#[cycle(put)]
fn put_members(
    out: &mut Vec<u8>,
    joining: &[u8],
    room: Room,
    members: &[Cond],
) -> Result<(), Memory>
    requires { IsTrue (is_word joining.now) }
    ensures { OnOk result (Puts (members_pieces (word joining.now) room members.now)
        out.old.items out.new.items) }
{
    let mut begun = false;
    for member in members {
        if begun {
            put_word(out, joining)?;
        }
        put_cond(out, room, member)?;
        begun = true;
    }
    Ok(())
}
