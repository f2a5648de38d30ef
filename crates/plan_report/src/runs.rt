// What a run tells: which filters went along the tree, how many rows each relation had, and how many tuples each prefix.
ghost use Rattle.std.specs.Prelude.{◌≡◌, ◌<◌, ◌++◌, IfSome, OnOk, Some, slice_index};
ghost use Rattle.std.specs.Fmt.{decimal};
ghost use Rattle.std.specs.Option.{option_map};
ghost use Rattle.plan_report.specs.Report.{answer_line, counts_lines, filter_line, kind_line, kind_text};
ghost use Rattle.plan_report.specs.Report.{prefix_counts_lines, rows_text, tuples_line, tuples_lines};
ghost use Rattle.plan_report.specs.Run.{IsRunOf, run_counts};

use crate::pieces::{put, put_long, put_number};
use morsel_pipeline::JoinRun;
use rpt_base::{FilterKind, Memory};
use transfer_pass::TransferRun;

/// What is told of a run over the query's tables. Its lists are in the order of FROM.
#[derive(Clone, Copy)]
pub struct RunPart<'a> {
    /// The kind of its filters.
    pub filter: FilterKind,
    /// How many rows each relation's table has.
    pub rows: &'a [u32],
    /// How many of these are selected.
    pub selected: &'a [u32],
    /// The filters' run, whose items are the selected rows.
    pub transfer: &'a TransferRun,
    /// How many tuples each prefix of the order has.
    pub joined: &'a JoinRun,
}

/// How many rows a relation has, how many are selected and how many reduced. Without a run nothing is put.
pub(crate) fn put_rows(
    out: &mut Vec<u8>,
    run: &Option<RunPart<'_>>,
    relations: u32,
    relation: u32,
) -> Result<(), Memory>
    requires run { IfSome run.now (IsRunOf relations) }
    requires relation { relation < relations }
    ensures { OnOk result (out.new.items ≡ out.old.items
        ++ rows_text (option_map run_counts run.now) relation) }
{
    match run {
        Some(run) => put_row_counts(out, run, relations, relation),
        None => Ok(()),
    }
}

fn put_row_counts(
    out: &mut Vec<u8>,
    run: &RunPart<'_>,
    relations: u32,
    relation: u32,
) -> Result<(), Memory>
    requires run { IsRunOf relations run.now }
    requires relation { relation < relations }
    ensures { OnOk result (out.new.items ≡ out.old.items
        ++ rows_text (Some (run_counts run.now)) relation) }
{
    put(out, b" rows ")?;
    put_number(out, run.rows[relation as usize])?;
    put(out, b" selected ")?;
    put_number(out, run.selected[relation as usize])?;
    put(out, b" reduced ")?;
    put_reduced(out, run, relations, relation)
}

fn put_reduced(
    out: &mut Vec<u8>,
    run: &RunPart<'_>,
    _relations: u32,
    relation: u32,
) -> Result<(), Memory>
    requires run { IsRunOf _relations run.now }
    requires relation { relation < _relations }
    ensures { OnOk result (out.new.items ≡ out.old.items
        ++ decimal (slice_index (run_counts run.now).reduced relation)) }
{
    put_number(out, run.transfer.reduced(relation))
}

/// Which filters a run has. Without a run nothing is put.
pub(crate) fn put_filter(out: &mut Vec<u8>, run: &Option<RunPart<'_>>) -> Result<(), Memory>
    ensures { OnOk result (out.new.items ≡ out.old.items
        ++ filter_line (option_map run_counts run.now)) }
{
    match run {
        Some(run) => put_kind(out, run.filter),
        None => Ok(()),
    }
}

fn put_kind(out: &mut Vec<u8>, filter: FilterKind) -> Result<(), Memory>
    ensures { OnOk result (out.new.items ≡ out.old.items ++ kind_line filter) }
{
    put(out, b"filter ")?;
    put(out, word_of(filter))?;
    put(out, b"\n")
}

fn word_of(filter: FilterKind) -> &'static [u8]
    ensures { result.now ≡ kind_text filter }
{
    match filter {
        FilterKind::Bloom => b"bloom",
        FilterKind::Exact => b"exact",
        FilterKind::Off => b"none",
    }
}

/// How many tuples each prefix of a run's order has, and then the answer. Without a run nothing is put.
pub(crate) fn put_tuples(out: &mut Vec<u8>, run: &Option<RunPart<'_>>) -> Result<(), Memory>
    ensures { OnOk result (out.new.items ≡ out.old.items
        ++ tuples_lines (option_map run_counts run.now)) }
{
    match run {
        Some(run) => put_counts(out, run.joined),
        None => Ok(()),
    }
}

fn put_counts(out: &mut Vec<u8>, joined: &JoinRun) -> Result<(), Memory>
    ensures { OnOk result (out.new.items ≡ out.old.items ++ counts_lines joined.now.counts) }
{
    put_prefixes(out, joined)?;
    put_answer(out, joined.count(joined.width()))
}

fn put_prefixes(out: &mut Vec<u8>, joined: &JoinRun) -> Result<(), Memory>
    ensures { OnOk result (out.new.items ≡ out.old.items ++ prefix_counts_lines joined.now.counts) }
{
    for index in 0..joined.width() {
        put_prefix(out, index + 1, joined.count(index + 1))?;
    }
    Ok(())
}

fn put_prefix(out: &mut Vec<u8>, prefix: u32, count: u64) -> Result<(), Memory>
    ensures { OnOk result (out.new.items ≡ out.old.items ++ tuples_line (prefix, count)) }
{
    put(out, b"prefix ")?;
    put_number(out, prefix)?;
    put(out, b" rows ")?;
    put_long(out, count)?;
    put(out, b"\n")
}

fn put_answer(out: &mut Vec<u8>, count: u64) -> Result<(), Memory>
    ensures { OnOk result (out.new.items ≡ out.old.items ++ answer_line count) }
{
    put(out, b"answer rows ")?;
    put_long(out, count)?;
    put(out, b"\n")
}
