//! Calls that are asked of the crates below the top, as data: `cases.txt` names the files that have the cases.
//!
//! A file lies in the folder of its crate of calls, whose README says how its cases are written. A case that gives something
//! else than what is wanted is printed, and at the end how many agree.
#![tactic(auto)]

use anyhow::{Context, Result};
use case_text::{Case, CaseError, Counts, read_case};
use std::alloc::Global;
use std::fs;
use std::rt::Files;
use std::thread::Threads;

fn main(rt: HostRuntime) -> Result<()> {
    try_files(rt)
}

// Some calls read files, and some may start threads, so that the runtime goes with each case.
fn try_files<R: Files + Print + AllocGlobal + Threads + Sync + Copy + Drop>(rt: R) -> Result<()> {
    let mut counts = Counts::none();
    let names = fs::read_to_string(&rt, "cases.txt")?;
    for name in names.lines() {
        let text = fs::read_to_string(&rt, name)?;
        for paragraph in text.split("\n\n") {
            try_case(rt, rt.alloc(), name, paragraph, &mut counts).context(format_args!(
                "{name}: {paragraph}"
            ))?;
        }
    }
    counts.tell(&rt)
}

// Tries the case of a paragraph of this file, if there is one.
fn try_case<R: Files + Print + Threads + Sync + Copy + Drop>(
    rt: R,
    alloc: Global,
    name: &str,
    paragraph: &str,
    counts: &mut Counts,
) -> Result<()> {
    let Some(case) = read_case(alloc, paragraph)? else {
        return Ok(());
    };
    let mut given = String::new(alloc);
    put_given(rt, alloc, name, &case, &mut given)?;
    let agrees = given.as_bytes() == case.wanted.as_slice();
    if !agrees {
        let (given, wanted) = (given.as_bytes().escape_ascii(), case.wanted.escape_ascii());
        println!(&rt; "{paragraph}\n  given: {given}\n  wanted: {wanted}")?;
    }
    counts.add(agrees);
    Ok(())
}

// Puts what a case's call gives, which is one of the calls of its file's folder.
fn put_given<R: Files + Threads + Sync + Copy + Drop>(
    rt: R,
    alloc: Global,
    name: &str,
    case: &Case,
    given: &mut String,
) -> Result<(), CaseError> {
    let (folder, _) = name.split_once('/').ok_or(CaseError::Word)?;
    match folder {
        "scripts" => script_calls::put_given(alloc, case, given),
        "graphs" => graph_calls::put_given(alloc, case, given),
        "tables" => table_calls::put_given(alloc, case, given),
        "builds" => build_calls::put_given(&rt, alloc, case, given),
        "transfers" => transfer_calls::put_given(&rt, alloc, case, given),
        "answers" => answer_calls::put_given(&rt, alloc, case, given),
        "outside" => outside_calls::put_given(rt, alloc, case, given),
        _ => Err(CaseError::Word),
    }
}
