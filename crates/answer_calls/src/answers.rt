// The answer of a query over its tables.
ghost use Rattle.bound_query.specs.Answer.{AreTables};

use crate::kept::put_kept;
use crate::plans::put_plan;
use crate::tuples::put_tuples;
use binder::Bound;
use case_text::CaseError;
use column_table::Table;
use rpt_base::FilterKind;
use rpt_engine::{AnswerError, Options, PrepareError, answer, prepare};
use rpt_outside::OpenGate;
use std::alloc::Global;
use std::thread::Threads;

const WORKERS: u32 = 4;

const MORSEL: u32 = 1024;

/// The filters that a word names.
pub fn filter_of(word: &str) -> Result<FilterKind, CaseError> {
    match word {
        "exact" => Ok(FilterKind::Exact),
        "bloom" => Ok(FilterKind::Bloom),
        "none" => Ok(FilterKind::Off),
        _ => Err(CaseError::Word),
    }
}

/// Puts the outcome of a query over its tables, which four workers find.
pub fn put_answer<R: Threads + Sync>(
    rt: &R,
    alloc: Global,
    bound: &Bound,
    tables: &[Table],
    filter: FilterKind,
    given: &mut String,
) -> Result<(), CaseError>
    requires { AreTables bound.now.query tables.now }
{
    // Its clauses say that there is a set of variables for each relation.
    let _relations = bound.relations();
    let options = Options {
        filter,
        workers: WORKERS,
        morsel: MORSEL,
        order: None,
        force: false,
    };
    let prepared = match prepare(alloc, bound, &options) {
        Ok(prepared) => prepared,
        Err(PrepareError::Memory) => return Err(CaseError::Memory),
        Err(_) => return Err(CaseError::Range),
    };
    let answered = answer(rt, alloc, bound, &prepared, tables, &options, &OpenGate);
    drop(prepared);
    match answered {
        Ok(outcome) => {
            put_plan(
                &outcome.tree,
                outcome.order.as_slice(),
                outcome.lists.as_slice(),
                given,
            );
            put_kept(&outcome.transfer, outcome.selected.as_slice(), given);
            put_tuples(&outcome.joined, given);
            Ok(())
        }
        Err(AnswerError::Memory) => Err(CaseError::Memory),
        Err(AnswerError::RowsOverflow { prefix: _ }) => Err(CaseError::Range),
    }
}
