// Mode sample: how a query is answered, and the size and the hash of its answer's text.
ghost use Rattle.std.specs.Prelude.{◌≡◌, ◌<◌, ◌++◌, IfOk, OnOk};
ghost use Rattle.bound_query.specs.Answer.{AreTables};
ghost use Rattle.rpt_outside.specs.Seen.{seen};
ghost use Rattle.rpt_outside.specs.Whole.{bytes_of};
ghost use Rattle.rpt_engine.specs.Answered.{GivesAnswer, plan_of};
ghost use Rattle.rpt_engine.specs.Prepared.{IsReady};
ghost use Rattle.rpt_cli.specs.Command.{summary_course, summary_text};
ghost use Rattle.rpt_cli.specs.Course.{Gives};
ghost use Rattle.rpt_cli.specs.Sample.{hash_line, hex_digit, hex_text, size_line, size_lines};
ghost use Rattle.rpt_cli.specs.Steps.{AreKept, TellsRun};

use crate::explain::explain_text;
use crate::joins::answer_query;
use crate::ready::Ready;
use crate::run::answer_text;
use column_table::Table;
use key_codes::fnv;
use refusal_lines::Refusal;
use rpt_base::{Memory, Str};
use rpt_engine::Outcome;
use rpt_outside::{Files, Gate};
use std::alloc::Global;
use std::thread::Threads;

/// Loads the tables of a query that is ready, answers it over them, and reports how, and how long the answer's text is
/// and its hash.
pub(crate) fn summary<R: Threads + Sync, F: Files, G: Gate + Sync>(
    rt: &R,
    alloc: Global,
    ready: &Ready,
    folder: &Str,
    files: &mut F,
    gate: &G,
) -> Result<Vec<u8>, Refusal>
    requires { IsReady ready.now.bound ready.now.prepared ready.now.options }
    ensures gives { Gives (seen F.Files files.old files.new)
        (summary_course ready.now.options.filter folder.now ready.now.bound ready.now.options.order) (bytes_of result) }
    ensures kept { AreKept F.Files files.old files.new }
{
    let found = answer_query(rt, alloc, ready, folder, files, gate)?;
    let text = summary_text(rt, alloc, ready, found.tables.as_slice(), &found.outcome);
    drop(found);
    let text = text?;
    Ok(text)
}

// The report of an outcome, and the size and the hash of the answer's text.
fn summary_text<R: Threads + Sync>(
    rt: &R,
    alloc: Global,
    ready: &Ready,
    tables: &[Table],
    outcome: &Outcome,
) -> Result<Vec<u8>, Memory>
    requires ready { IsReady ready.now.bound ready.now.prepared ready.now.options }
    requires tables { AreTables ready.now.bound.query tables.now }
    requires answer { GivesAnswer ready.now.bound tables.now outcome.now }
    requires tells { TellsRun ready.now.bound tables.now ready.now.options outcome.now }
    ensures { IfOk result (λ text. text.items
        ≡ summary_text ready.now.options.filter ready.now.bound tables.now (plan_of outcome.now)) }
{
    let mut text = explain_text(alloc, ready, tables, outcome)?;
    let answer = answer_text(rt, alloc, &ready.bound, tables, outcome)?;
    put_sizes(alloc, &mut text, &answer)?;
    Ok(text)
}

// How many bytes an answer's text has, and its hash.
fn put_sizes(alloc: Global, text: &mut Vec<u8>, answer: &[u8]) -> Result<(), Memory>
    ensures { OnOk result (text.new.items ≡ text.old.items ++ size_lines answer.now) }
{
    put_size(alloc, text, answer.len())?;
    put_hash(text, fnv(answer))?;
    Ok(())
}

fn put_size(alloc: Global, text: &mut Vec<u8>, bytes: usize) -> Result<(), Memory>
    ensures { OnOk result (text.new.items ≡ text.old.items ++ size_line bytes) }
{
    let line = format!(in alloc; "output bytes {bytes}\n")?;
    put(text, line.as_bytes())
}

// A hash in 16 hexadecimal digits.
fn put_hash(text: &mut Vec<u8>, hash: u64) -> Result<(), Memory>
    ensures { OnOk result (text.new.items ≡ text.old.items ++ hash_line hash) }
{
    put(text, b"output fnv ")?;
    put_digits(text, hash)?;
    put(text, b"\n")?;
    Ok(())
}

fn put_digits(text: &mut Vec<u8>, hash: u64) -> Result<(), Memory>
    ensures { OnOk result (text.new.items ≡ text.old.items ++ hex_text hash) }
{
    for place in 0..16u32 {
        put(text, &[hex_digit(hash, place)])?;
    }
    Ok(())
}

// The digit at a place, from the highest on.
fn hex_digit(hash: u64, place: u32) -> u8
    requires { place < 16 }
    ensures { result ≡ hex_digit hash place }
{
    b"0123456789abcdef"[((hash >> (60 - 4 * place)) % 16) as usize]
}

fn put(text: &mut Vec<u8>, piece: &[u8]) -> Result<(), Memory>
    ensures { OnOk result (text.new.items ≡ text.old.items ++ piece.now) }
{
    text.extend_from_slice(piece)?;
    Ok(())
}
