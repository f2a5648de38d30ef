//! The call that cases ask of a query's answer: of `rpt_engine`.
//!
//! `README.md` says how a case is written.
#![tactic(auto)]

mod answers;
mod kept;
mod plans;
mod queries;
mod tables;
mod tuples;

use bound_query::Bound;
use case_text::{Case, CaseError};
use rpt_base::FilterKind;
use std::alloc::Global;
use std::thread::Threads;

/// Puts what the answer of a case's script is over its tables. It is an error of words that the case calls something else.
pub fn put_given<R: Threads + Sync>(
    rt: &R,
    alloc: Global,
    case: &Case,
    given: &mut String,
) -> Result<(), CaseError> {
    if case.word.as_str() != "answer" {
        return Err(CaseError::Word);
    }
    let filter = answers::filter_of(case.head.as_str())?;
    let bound = queries::query_of(alloc, &case.text)?;
    let put = put_over(rt, alloc, &bound, case, filter, given);
    drop(bound);
    put
}

fn put_over<R: Threads + Sync>(
    rt: &R,
    alloc: Global,
    bound: &Bound,
    case: &Case,
    filter: FilterKind,
    given: &mut String,
) -> Result<(), CaseError> {
    let tables = tables::tables_of(alloc, bound, &case.entries)?;
    answers::put_answer(rt, alloc, bound, &tables, filter, given)
}
