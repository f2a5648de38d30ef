//! Calls that cases ask of scripts: of the crates from bytes to bound queries.
//!
//! `README.md` says which calls there are, and how a case is written.
#![tactic(auto)]

mod conditions;
mod members;
mod printing;
mod queries;
mod scripts;
mod tokens;
mod trees;
mod walks;

use case_text::{Case, CaseError, put};
use sql_text::ParseError;
use std::alloc::Global;

/// Puts what a case's call gives. It is an error of words that the call is none of these.
pub fn put_given(alloc: Global, case: &Case, given: &mut String) -> Result<(), CaseError> {
    match case.word.as_str() {
        "walks" => walks::put_walks(alloc, case.head.as_str(), given),
        "no_members" => members::put_no_members(alloc, given),
        "no_memory" => {
            put(given, format_args!("{}\n", ParseError::Memory));
            Ok(())
        }
        word => scripts::put_script(alloc, word, &case.whole_text(alloc)?, given),
    }
}
