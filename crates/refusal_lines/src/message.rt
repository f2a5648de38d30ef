// The status of a refusal, and its line.
ghost use Rattle.std.specs.Prelude.{◌≡◌, ◌∷◌, []};
ghost use Rattle.std.specs.Fmt.{decimal};
ghost use Rattle.rpt_outside.specs.Causes.{Puts};
ghost use Rattle.refusal_lines.specs.Message.{field_line, line, line_of, part_text, parts_text, status_of};
ghost use Rattle.refusal_lines.specs.Message.{text_of as bind_text};
ghost use Rattle.refusal_lines.specs.declared.errors.Refusal.TheVariants.{Bind, Cyclic, Header, Ragged, Usage};

use crate::errors::Refusal;
use Part::{Number, Text};
use itoa::Buffer;
use rpt_base::Str;
use rpt_outside::{Failed, Sink};
use script_rules::BindKind;

// A part of a line.
#[derive(Clone, Copy)]
pub(crate) enum Part<'a> {
    Text(&'a [u8]),
    Number(u32),
}

const RPT: &[u8] = b"rpt: ";

const END: Part<'static> = Text(b"\n");

const NONE: Part<'static> = Text(b"");

/// The exit status of a refusal, 1 to 10.
pub fn status(refusal: &Refusal) -> u8
    ensures { result ≡ status_of refusal.now }
{
    match refusal {
        Refusal::Memory => 1,
        Refusal::Usage | Refusal::OrderNames => 2,
        Refusal::ReadFault { .. } => 3,
        Refusal::WriteFault => 4,
        Refusal::Lex { .. } | Refusal::Syntax { .. } | Refusal::TooDeep { .. } => 5,
        Refusal::Bind { .. } => 6,
        Refusal::Header { .. }
        | Refusal::Ragged { .. }
        | Refusal::BadField { .. }
        | Refusal::NotUtf8 { .. } => 7,
        Refusal::Cyclic { .. } => 8,
        Refusal::UnsafeOrder { .. } => 9,
        Refusal::TooLarge { .. } | Refusal::TooManyRows | Refusal::RowsOverflow { .. } => 10,
    }
}

/// Puts the line of a refusal. `Failed` comes only where the sink's count of faults rose, and then a prefix of the line was
/// taken. It takes no memory.
pub fn put_line<M: Sink>(refusal: &Refusal, sink: &mut M) -> Result<(), Failed>
    ensures { Puts (M.taken sink.old) (M.taken sink.new) (M.faults sink.old) (M.faults sink.new)
        (line_of refusal.now) result }
{
    put_parts(&parts(refusal), sink)
}

// The parts of a line in order. Those past its end are empty.
fn parts(refusal: &Refusal) -> [Part<'_>; 7]
    ensures { parts_text result ≡ line_of refusal.now }
{
    match refusal {
        Refusal::Usage => usage(),
        Refusal::ReadFault { name } => named(b"rpt: cannot read ", name),
        Refusal::TooLarge { name } => named(b"rpt: too large: ", name),
        Refusal::Lex { offset } => placed(b"rpt: bad token at ", *offset),
        Refusal::Syntax { offset } => placed(b"rpt: syntax error at ", *offset),
        Refusal::TooDeep { offset } => placed(b"rpt: nested too deep at ", *offset),
        Refusal::Bind { kind, offset } => unbound(*kind, *offset),
        Refusal::Cyclic { best, needed } => cyclic(*best, *needed),
        Refusal::OrderNames => plain(b"rpt: order is not a permutation of the relations"),
        Refusal::UnsafeOrder { prefix } => placed(b"rpt: unsafe order at prefix ", *prefix),
        Refusal::Header { table, column } => headed(table, column),
        Refusal::Ragged { table, row } => ragged(table, *row),
        Refusal::BadField { table, row, column } => field(
            table,
            b": bad field at row ",
            *row,
            column,
        ),
        Refusal::NotUtf8 { table, row, column } => field(
            table,
            b": not UTF-8 at row ",
            *row,
            column,
        ),
        Refusal::TooManyRows => plain(b"rpt: too many rows"),
        Refusal::RowsOverflow { prefix } => placed(
            b"rpt: too many joined rows at prefix ",
            *prefix,
        ),
        Refusal::WriteFault => plain(b"rpt: cannot write"),
        Refusal::Memory => plain(b"rpt: out of memory"),
    }
}

fn usage<'a>() -> [Part<'a>; 7]
    ensures { parts_text result ≡ line_of Usage }
{
    [
        Text(b"rpt: usage: rpt run|explain|check|sample SCRIPT DIR"),
        Text(b" [--filter bloom|exact|none] [--workers N] [--morsel N] [--order A,B] [--force]"),
        END,
        NONE,
        NONE,
        NONE,
        NONE,
    ]
}

fn plain(text: &[u8]) -> [Part<'_>; 7]
    ensures { parts_text result ≡ line (text.now ∷ []) }
{
    [Text(text), END, NONE, NONE, NONE, NONE, NONE]
}

fn named<'a>(head: &'a [u8], name: &'a Str) -> [Part<'a>; 7]
    ensures { parts_text result ≡ line (head.now ∷ name.now ∷ []) }
{
    [Text(head), Text(name.bytes()), END, NONE, NONE, NONE, NONE]
}

fn placed(head: &[u8], offset: u32) -> [Part<'_>; 7]
    ensures { parts_text result ≡ line (head.now ∷ decimal offset ∷ []) }
{
    [Text(head), Number(offset), END, NONE, NONE, NONE, NONE]
}

fn unbound<'a>(kind: BindKind, offset: u32) -> [Part<'a>; 7]
    ensures { parts_text result ≡ line_of (Bind kind offset) }
{
    [
        Text(RPT),
        Text(text_of(kind)),
        Text(b" at "),
        Number(offset),
        END,
        NONE,
        NONE,
    ]
}

fn cyclic<'a>(best: u32, needed: u32) -> [Part<'a>; 7]
    ensures { parts_text result ≡ line_of (Cyclic best needed) }
{
    [
        Text(b"rpt: cyclic: weight "),
        Number(best),
        Text(b" of "),
        Number(needed),
        END,
        NONE,
        NONE,
    ]
}

// Why a script isn't bound.
fn text_of<'a>(kind: BindKind) -> &'a [u8]
    ensures { result.now ≡ bind_text kind }
{
    match kind {
        BindKind::BadTableName => b"bad table name",
        BindKind::DuplicateTable => b"duplicate table",
        BindKind::TooManyColumns => b"too many columns",
        BindKind::DuplicateColumn => b"duplicate column",
        BindKind::UnknownTable => b"unknown table",
        BindKind::DuplicateAlias => b"duplicate relation",
        BindKind::TooManyRelations => b"too many relations",
        BindKind::UnknownColumn => b"unknown column",
        BindKind::Ambiguous => b"ambiguous column",
        BindKind::TypeMismatch => b"type mismatch",
        BindKind::NotEquiJoin => b"not an equality join",
    }
}

fn headed<'a>(table: &'a Str, column: &'a Str) -> [Part<'a>; 7]
    ensures { parts_text result ≡ line_of (Header table.now column.now) }
{
    [
        Text(RPT),
        Text(table.bytes()),
        Text(b": header column "),
        Text(column.bytes()),
        END,
        NONE,
        NONE,
    ]
}

fn ragged(table: &Str, row: u32) -> [Part<'_>; 7]
    ensures { parts_text result ≡ line_of (Ragged table.now row) }
{
    [
        Text(RPT),
        Text(table.bytes()),
        Text(b": ragged row "),
        Number(row),
        END,
        NONE,
        NONE,
    ]
}

fn field<'a>(table: &'a Str, what: &'a [u8], row: u32, column: &'a Str) -> [Part<'a>; 7]
    ensures { parts_text result ≡ field_line table.now what.now row column.now }
{
    [
        Text(RPT),
        Text(table.bytes()),
        Text(what),
        Number(row),
        Text(b" column "),
        Text(column.bytes()),
        END,
    ]
}

fn put_parts<M: Sink>(parts: &[Part], sink: &mut M) -> Result<(), Failed>
    ensures { Puts (M.taken sink.old) (M.taken sink.new) (M.faults sink.old) (M.faults sink.new)
        (parts_text parts.now) result }
{
    for part in parts {
        if let Err(failed) = put_part(part, sink) {
            return Err(failed);
        }
    }
    Ok(())
}

// A number's text is written to a buffer on the stack. An empty part is not put, since each put may be a call on the system.
fn put_part<M: Sink>(part: &Part, sink: &mut M) -> Result<(), Failed>
    ensures { Puts (M.taken sink.old) (M.taken sink.new) (M.faults sink.old) (M.faults sink.new)
        (part_text part.now) result }
{
    let mut buffer = Buffer::new();
    let text = match part {
        Part::Text(text) => text,
        Part::Number(number) => buffer.format(*number).as_bytes(),
    };
    if text.is_empty() {
        return Ok(());
    }
    sink.put(text)
}
