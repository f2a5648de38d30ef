// Answers in lexicographic order.
ghost use Rattle.std.specs.Prelude.{◌≡◌, ◌≤◌, All, IfOk, IsTrue, length, map};
ghost use Rattle.std.specs.List.Sorted.{IsPermutation, IsSorted};
ghost use Rattle.std.specs.Cmp.Lexicographic.{slice_cmp};
ghost use Rattle.std.specs.Ordering.{nat_cmp};
ghost use Rattle.row_output.specs.Heads.{IsHead};

use crate::answer::Answer;
use rpt_base::Memory;
use std::alloc::Global;

/// The same lists in lexicographic order, with equal ones all kept.
pub(crate) fn sorted(alloc: Global, answer: Answer) -> Result<Answer, Memory>
    ensures kept { IfOk result (λ sorted. IsPermutation answer.rows sorted.rows) }
    ensures sorted { IfOk result (λ sorted. IsSorted (slice_cmp nat_cmp) sorted.rows) }
{
    if is_sorted(&answer) {
        return Ok(answer);
    }
    let mut rows = rows_of(alloc, &answer)?;
    rows.sort_unstable();
    gathered(alloc, answer.width(), rows.as_slice())
}

// Whether no list is less than the one before it.
fn is_sorted(answer: &Answer) -> bool
    ensures { IsTrue result → IsSorted (slice_cmp nat_cmp) answer.now.rows }
{
    for row in 1..answer.count() {
        if answer.row(row).cmp(answer.row(row - 1)).is_lt() {
            return false;
        }
    }
    true
}

// A list behind its first two numbers, or 0 where there is none: a sort moves references in place of the numbers, and most of its
// comparisons follow none.
type Headed<'a> = (u32, u32, &'a [u32]);

fn headed(row: &[u32]) -> Headed<'_>
    ensures row { result.2.now ≡ row.now }
    ensures heads { IsHead result.0 result.1 row.now }
{
    match row {
        [] => (0, 0, row),
        [first] => (*first, 0, row),
        [first, second, ..] => (*first, *second, row),
    }
}

// The lists, to be sorted.
fn rows_of(alloc: Global, answer: &Answer) -> Result<Vec<Headed<'_>>, Memory>
    ensures rows { IfOk result (λ rows. map (λ row. row.2.now) rows.items ≡ answer.now.rows) }
    ensures wide { IfOk result (λ rows. All (λ row. length row.2.now ≡ answer.now.width)
        rows.items) }
    ensures heads { IfOk result (λ rows. All (λ row. IsHead row.0 row.1 row.2.now) rows.items) }
{
    let mut rows = Vec::with_capacity(alloc, answer.count() as usize)?;
    for row in 0..answer.count() {
        rows.push(headed(answer.row(row)))?;
    }
    Ok(rows)
}

// The answer that has these lists.
fn gathered(alloc: Global, width: usize, rows: &[Headed<'_>]) -> Result<Answer, Memory>
    requires some { 1 ≤ width }
    requires wide { All (λ row. length row.2.now ≡ width) rows.now }
    ensures { IfOk result (λ answer. answer.rows ≡ map (λ row. row.2.now) rows.now) }
{
    let mut gathered = Answer::none(alloc, width);
    gathered.reserve(width.saturating_mul(rows.len()))?;
    for (_, _, row) in rows {
        gathered.push(row)?;
    }
    Ok(gathered)
}
