// Sinks that take pieces.
use crate::reads::{bytes_of, put_bytes, put_started};
use crate::writers::{Broken, Dripping};
use case_text::{CaseError, Entry, number_of, pair_of, push_read};
use rpt_outside::{MemorySink, Sink, StreamSink};
use std::alloc::Global;

/// Puts for each line `put` whether the piece failed, and all that a sink with this room took. A line `fail` has the number of
/// a put that fails, and how many bytes that one takes.
pub fn put_memory(
    alloc: Global,
    room: &str,
    entries: &[Entry],
    given: &mut String,
) -> Result<(), CaseError> {
    let fail = fail_of(alloc, entries)?;
    let mut sink = MemorySink::new(alloc, number_of(Some(room))?, fail)?;
    put_taken(alloc, &mut sink, entries, given)
}

fn put_taken(
    alloc: Global,
    sink: &mut MemorySink,
    entries: &[Entry],
    given: &mut String,
) -> Result<(), CaseError> {
    for entry in entries {
        if entry.word.as_str() == "put" {
            let answer = sink.put(&bytes_of(alloc, entry.rest.as_str())?);
            put_started(answer, given);
            put_bytes(sink.bytes(), given);
        }
    }
    Ok(())
}

fn fail_of(alloc: Global, entries: &[Entry]) -> Result<Vec<(u32, u32)>, CaseError> {
    let mut fail = Vec::new(alloc);
    for entry in entries {
        if entry.word.as_str() == "fail" {
            let mut words = entry.rest.as_str().split_whitespace();
            push_read(&mut fail, pair_of(words.next(), words.next()))?;
        }
    }
    Ok(fail)
}

/// Puts for each line whether its piece failed, and at the end what a writer took that takes one byte at a time, and so many.
pub fn put_dripping(
    alloc: Global,
    room: &str,
    entries: &[Entry],
    given: &mut String,
) -> Result<(), CaseError> {
    let room = number_of(Some(room))? as usize;
    let mut taken = Vec::new(alloc);
    {
        let mut sink = StreamSink::new(Dripping {
            taken: &mut taken,
            room,
        });
        put_pieces(alloc, &mut sink, entries, given)?;
    }
    put_bytes(&taken, given);
    Ok(())
}

/// Puts for each line whether its piece failed, of a writer whose writes fail, or else its flushes.
pub fn put_broken(
    alloc: Global,
    call: &str,
    entries: &[Entry],
    given: &mut String,
) -> Result<(), CaseError> {
    let mut sink = StreamSink::new(Broken {
        fails_at_write: call == "write",
    });
    put_pieces(alloc, &mut sink, entries, given)
}

fn put_pieces<S: Sink>(
    alloc: Global,
    sink: &mut S,
    entries: &[Entry],
    given: &mut String,
) -> Result<(), CaseError> {
    for entry in entries {
        let answer = sink.put(&bytes_of(alloc, entry.rest.as_str())?);
        put_started(answer, given);
    }
    Ok(())
}
