// Tuples in the order of FROM.
ghost use Rattle.std.specs.Prelude.{◌<◌, ℕ, Contains, IsTrue};
ghost use Rattle.rpt_base.specs.Orders.{IsOrder};

use case_text::{CaseError, numbers_of, put};
use morsel_pipeline::JoinRun;
use row_output::ordered;
use std::alloc::Global;
use std::thread::Threads;

/// Puts the lists of the answer that a run is, whose relations were joined in this order.
pub fn put_ordered<R: Threads + Sync>(
    rt: &R,
    alloc: Global,
    run: &JoinRun,
    order: &str,
    given: &mut String,
) -> Result<(), CaseError> {
    let order = numbers_of(alloc, order)?;
    if !has_each_once(run.width(), &order) {
        return Err(CaseError::Range);
    }
    let answer = ordered(rt, alloc, run, &order)?;
    put(given, "answer");
    for list in 0..answer.count() {
        put(given, format_args!(" {:?}", answer.row(list)));
    }
    put(given, "\n");
    Ok(())
}

fn has_each_once(width: u32, order: &[u32]) -> bool
    ensures { IsTrue result → IsOrder width order.now }
{
    order.len() == width as usize
        && order.iter().all(|relation| *relation < width)
        && has_all(width, order)
}

fn has_all(width: u32, order: &[u32]) -> bool
    ensures { IsTrue result → (r : ℕ) → r < width → Contains order.now r }
{
    for relation in 0..width {
        if !order.contains(&relation) {
            return false;
        }
    }
    true
}
