// Files that are read.
use case_text::{CaseError, Entry, number_of, push_read, put, put_text};
use rpt_outside::{Failed, Files, FolderFiles, MemoryFiles, ReadError, read_whole};
use std::alloc::Global;
use std::rt::Files as Host;
use std::str;

/// Puts what calls of files in memory answer. Lines `file` have a name and the bytes of each, and lines `fail` the numbers of
/// the calls that fail; a read gives at most so many bytes.
pub fn put_memory(
    alloc: Global,
    piece: &str,
    entries: &[Entry],
    given: &mut String,
) -> Result<(), CaseError> {
    let piece = number_of(Some(piece))?;
    if piece < 1 {
        return Err(CaseError::Range);
    }
    let (files, fail) = (files_of(alloc, entries)?, fail_of(alloc, entries)?);
    let mut files = MemoryFiles::new(alloc, files, fail, piece)?;
    put_calls(alloc, &mut files, entries, given)
}

/// The same of the files of the folder that the program runs in.
pub fn put_folder<R: Host + Drop>(
    rt: R,
    alloc: Global,
    entries: &[Entry],
    given: &mut String,
) -> Result<(), CaseError> {
    let mut files = FolderFiles::new(rt);
    put_calls(alloc, &mut files, entries, given)
}

fn files_of(alloc: Global, entries: &[Entry]) -> Result<Vec<(Vec<u8>, Vec<u8>)>, CaseError> {
    let mut files = Vec::new(alloc);
    for entry in entries {
        if entry.word.as_str() == "file" {
            let rest = entry.rest.as_str();
            let (name, bytes) = rest.split_once(' ').unwrap_or((rest, ""));
            files.push((bytes_of(alloc, name)?, bytes_of(alloc, bytes)?))?;
        }
    }
    Ok(files)
}

fn fail_of(alloc: Global, entries: &[Entry]) -> Result<Vec<u32>, CaseError> {
    let mut fail = Vec::new(alloc);
    for entry in entries {
        if entry.word.as_str() == "fail" {
            push_read(&mut fail, number_of(Some(entry.rest.as_str())))?;
        }
    }
    Ok(fail)
}

/// The bytes that a text means.
pub fn bytes_of(alloc: Global, text: &str) -> Result<Vec<u8>, CaseError> {
    let mut bytes = Vec::new(alloc);
    put_text(&mut bytes, text)?;
    Ok(bytes)
}

// What is read lands in one buffer of four bytes, which keeps what it had behind that.
fn put_calls<F: Files>(
    alloc: Global,
    files: &mut F,
    entries: &[Entry],
    given: &mut String,
) -> Result<(), CaseError> {
    let mut into = [b'.'; 4];
    for entry in entries {
        put_call(alloc, files, entry, &mut into, given)?;
    }
    Ok(())
}

fn put_call<F: Files>(
    alloc: Global,
    files: &mut F,
    entry: &Entry,
    into: &mut [u8; 4],
    given: &mut String,
) -> Result<(), CaseError> {
    let rest = entry.rest.as_str();
    match entry.word.as_str() {
        "file" | "fail" => {}
        "start" => put_started(files.start_file(&bytes_of(alloc, rest)?), given),
        "read" => put_read(files.read(into), into, given),
        "whole" => return put_whole(alloc, files, rest, given),
        _ => return Err(CaseError::Word),
    }
    Ok(())
}

/// Puts whether a call failed.
pub fn put_started(answer: Result<(), Failed>, given: &mut String) {
    match answer {
        Ok(()) => put(given, "ok\n"),
        Err(Failed) => put(given, "failed\n"),
    }
}

fn put_read(answer: Result<usize, Failed>, into: &[u8], given: &mut String) {
    match answer {
        Ok(count) => {
            put(given, format_args!("{count} "));
            put_bytes(into, given)
        }
        Err(Failed) => put_started(Err(Failed), given),
    }
}

/// Puts bytes that are text.
pub fn put_bytes(bytes: &[u8], given: &mut String) {
    match str::from_utf8(bytes) {
        Ok(text) => put(given, format_args!("{text}\n")),
        Err(_) => put(given, "not UTF-8\n"),
    }
}

// A limit, and the file's name.
fn put_whole<F: Files>(
    alloc: Global,
    files: &mut F,
    rest: &str,
    given: &mut String,
) -> Result<(), CaseError> {
    let Some((limit, name)) = rest.split_once(' ') else {
        return Err(CaseError::Word);
    };
    let limit = number_of(Some(limit))?;
    match read_whole(alloc, files, name.as_bytes(), limit) {
        Ok(bytes) => put_bytes(&bytes, given),
        Err(ReadError::Failed) => put(given, "failed\n"),
        Err(ReadError::TooLarge) => put(given, "too large\n"),
        Err(ReadError::Memory) => return Err(CaseError::Memory),
    }
    Ok(())
}
