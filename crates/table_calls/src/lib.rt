//! Calls that cases ask of values, names, tables and sets of rows: of the crates from bytes to tables.
//!
//! `README.md` says which calls there are, and how a case is written.
#![tactic(auto)]

mod loads;
mod rows;
mod sets;
mod values;

use case_text::{Case, CaseError};
use std::alloc::Global;

/// Puts what a case's call gives. It is an error of words that the call is none of these.
pub fn put_given(alloc: Global, case: &Case, given: &mut String) -> Result<(), CaseError> {
    let head = case.head.as_str();
    match case.word.as_str() {
        "text" => values::put_text(alloc, case, given),
        "name" => values::put_name(alloc, case, given),
        "rising" => values::put_rising(alloc, head, given),
        "listed" => values::put_listed(alloc, head, given),
        "load" => loads::put_loaded(alloc, head, &case.text, given),
        "count_rows" => loads::put_count(alloc, head, &case.text, given),
        "push_row" => rows::put_pushed(alloc, &case.entries, given),
        "builder" => rows::put_built(alloc, &case.entries, given),
        "row_bits" => sets::put_bits(alloc, head, &case.entries, given),
        _ => Err(CaseError::Word),
    }
}
