// The top call.
ghost use Rattle.std.specs.Prelude.{◌≡◌, ◌≢◌, ◌⊎◌, ◌<◌, ◌≤◌, ◌+◌, ◌-◌, ◌^◌, List, ℕ, min};
ghost use Rattle.std.specs.Prelude.{Some, IfSome, IsOk, IsOkAnd, IsSome};
ghost use Rattle.std.specs.Io.KnownBytes.{Appends};
ghost use Rattle.rpt_outside.specs.Causes.{NeverFalls, Rose};
ghost use Rattle.rpt_outside.specs.Seen.{put_to, seen};
ghost use Rattle.command_words.specs.Words.{command_of, words_of};
ghost use Rattle.command_words.specs.declared.words.Command.{Command};
ghost use Rattle.command_words.specs.declared.words.Mode.TheVariants as mode;
ghost use Rattle.rpt_cli.specs.Course.{Reply, IsOutcome, NoneRose};
ghost use Rattle.rpt_cli.specs.Command.{course};
ghost use Rattle.rpt_cli.specs.Explained.{IsExplained};
ghost use Rattle.rpt_cli.specs.Outcome.{HasReply};

use crate::deliver::deliver;
use crate::reply::reply_to;
use rpt_outside::{Files, Gate, Sink};
use std::alloc::Global;
use std::thread::Threads;

/// HasReply the words of a command line, without the program's name, and gives the status.
///
/// The words `run SCRIPT DIR` put the answer of the script over the tables' files in the folder to `out`;
/// `explain SCRIPT DIR` the report of how it was answered, with the numbers of rows; and `check SCRIPT DIR` the report of
/// how it would be. The status is 0 then. Otherwise one line is put to `messages`, and the status says why: 1 want of
/// memory, 2 no command or an order that isn't one of the relations, 3 a file can't be read, 4 the output can't be
/// written, 5 no script, 6 the script doesn't bind, 7 a bad table, 8 a cyclic query, 9 an unsafe order, 10 a file is too
/// large, or the tables or a join have too many rows. Nothing is put to `out` then, but on status 4 a prefix of the text.
pub fn run_command<R: Threads + Sync, F: Files, S: Sink, M: Sink, G: Gate + Sync>(
    rt: &R,
    alloc: Global,
    words: &[String],
    files: &mut F,
    out: &mut S,
    messages: &mut M,
    gate: &G,
) -> u8
    // The whole truth: some reply has its cause, and is what was delivered.
    ensures reply { HasReply (seen F.Files files.old files.new) (put_to S.Sink out.old out.new)
        (put_to M.Sink messages.old messages.new) (course (words_of words.now)) result }

    // Where the files tell what the command asks for, the output is the text of that.
    ensures text { result ≡ 0 → (reply : Reply)
        → IsOutcome (F.contents files.old) (course (words_of words.now)) reply
        → IsOkAnd reply (λ text. Appends (S.taken out.old) (S.taken out.new) text) }

    // What explain prints: each prefix count of an accepted order is that prefix's number of tuples, and at most the
    // answer's.
    ensures counts { result ≡ 0 → (command : Command) → command_of (words_of words.now) ≡ Some command
        → command.mode ≡ mode.Explain
        → (text : List ℕ) × Appends (S.taken out.old) (S.taken out.new) text
        × IsExplained (F.contents files.old) command text }

    // No usage, read fault or write fault without its cause: on status 2 the words are no command, or they give an
    // order.
    ensures usage { result ≡ 2 → IfSome (command_of (words_of words.now))
        (λ command. IsSome command.order) }
    ensures read_fault { result ≡ 3 → (name : List ℕ)
        × Rose (F.faults files.old name) (F.faults files.new name) }
    ensures write_fault { result ≡ 4 → Rose (S.faults out.old) (S.faults out.new) }

    // The files' contents are what they were, and no count of faults falls.
    ensures contents { F.contents files.new ≡ F.contents files.old }
    ensures later { NeverFalls (F.faults files.old) (F.faults files.new) }
    ensures sinks_later { (S.faults out.old ≤ S.faults out.new)
        × (M.faults messages.old ≤ M.faults messages.new) }

    // Nothing is put out on any other status, and no message on status 0.
    ensures silent { result ≢ 0 → result ≢ 4 → out.new ≡ out.old }
    ensures quiet { result ≡ 0 → messages.new ≡ messages.old }

    // Where no fault comes in between, there is a text, or memory ran out.
    ensures complete { (reply : Reply) → IsOutcome (F.contents files.old) (course (words_of words.now)) reply
        → IsOk reply
        → NoneRose (seen F.Files files.old files.new) (course (words_of words.now))
        → S.faults out.new < min (S.faults out.old + 1) (2 ^ 64 - 1)
        → (result ≡ 0) ⊎ (result ≡ 1) }
{
    let reply = reply_to(rt, alloc, words, files, gate);
    deliver(reply, out, messages)
}
