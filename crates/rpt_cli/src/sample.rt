// Mode sample: a script and tables that are made.
ghost use Rattle.std.specs.Prelude.{◌≡◌, IfOk, Some, map};
ghost use Rattle.rpt_outside.specs.Whole.{bytes_of};
ghost use Rattle.command_words.specs.Words.{IsWithinLimits};
ghost use Rattle.sample_gen.specs.Tables.{named_text};
ghost use Rattle.rpt_cli.specs.Command.{sample_course};
ghost use Rattle.rpt_cli.specs.Sample.{file_bytes};
ghost use Rattle.rpt_cli.specs.Steps.{GivesUnasked};

use crate::modes::answer_bound;
use crate::query::query_in;
use crate::tables::file_text;
use command_words::{Command, sample_number};
use refusal_lines::Refusal;
use rpt_base::{Memory, Name, Str};
use rpt_outside::{Files, Gate, HeldFiles};
use sample_gen::{Sample, sample};
use std::alloc::Global;
use std::thread::Threads;

/// Makes a sample, and answers its script over its tables.
pub(crate) fn answer_sample<R: Threads + Sync, G: Gate + Sync>(
    rt: &R,
    alloc: Global,
    command: &Command,
    gate: &G,
) -> Result<Vec<u8>, Refusal>
    requires fits { IsWithinLimits command.now }
    ensures { GivesUnasked (sample_course command.now) (bytes_of result) }
{
    let number = sample_number(command.script.as_str()).unwrap_or(0);
    let Sample { script, tables } = sample(alloc, number)?;
    let mut files = files_in(alloc, &command.folder, tables)?;
    let bound = query_in(alloc, &script)?;
    answer_bound(rt, alloc, command, bound, &mut files, gate)
}

// Tables as the files of a folder.
fn files_in(alloc: Global, folder: &Str, tables: Vec<(Name, Vec<u8>)>) -> Result<HeldFiles, Memory>
    ensures { IfOk result (λ files. ⟦<HeldFiles as Files>⟧.contents files
        ≡ λ name. Some (file_bytes folder.now (map named_text tables.items) name)) }
{
    let mut files = Vec::new(alloc);
    for (name, text) in tables {
        let file = file_text(alloc, folder, &name)?.into_bytes();
        files.push((file, text))?;
    }
    Ok(HeldFiles::new(files))
}
