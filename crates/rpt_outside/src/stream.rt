// A real stream. It tells no bytes.
ghost use Rattle.std.specs.Prelude.{None, OnOk};
ghost use Rattle.std.specs.Io.KnownBytes.{Appends};

use crate::traits::{Failed, Sink};
use std::io::Write;

/// A writer as a sink. Each put is flushed.
///
/// Each error of the writer is a fault, and so is a write that takes nothing of a piece that isn't empty.
#[derive(Drop)]
pub struct StreamSink<W: Write> {
    writer: W,
    faults: u64,
}

impl<W: Write> StreamSink<W> {
    /// A sink that puts to that writer.
    pub fn new(writer: W) -> StreamSink<W> {
        StreamSink { writer, faults: 0 }
    }
}

impl<W: Write> Sink for StreamSink<W> {
    ghost taken = { λ _. None };

    ghost faults = { λ s. s.faults };

    fn put(&mut self, piece: &[u8]) -> Result<(), Failed> {
        match put_all(&mut self.writer, piece) {
            Ok(()) => Ok(()),
            Err(_) => {
                self.faults = self.faults.saturating_add(1);
                Err(Failed)
            }
        }
    }
}

// Writes the whole piece and flushes. Each turn takes at least one byte.
fn put_all<W: Write>(writer: &mut W, piece: &[u8]) -> Result<(), Failed>
    ensures { OnOk result (Appends (W.contents writer.old) (W.contents writer.new) piece.now) }
{
    let mut rest = piece;
    while !rest.is_empty() {
        match writer.write(rest) {
            Ok(0) => return Err(Failed),
            Ok(count) => rest = &rest[count..],
            Err(_) => return Err(Failed),
        }
    }
    match writer.flush() {
        Ok(()) => Ok(()),
        Err(_) => Err(Failed),
    }
}
