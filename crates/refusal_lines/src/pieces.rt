// Texts that are put piece by piece.
ghost use Rattle.std.specs.Prelude.{◌<◌};
ghost use Rattle.rpt_outside.specs.Causes.{Puts};

use rpt_outside::{Failed, Sink};

const PIECE: usize = 65_536;

/// Puts a text in pieces of 65,536 bytes, and what is left in a last one. `Failed` comes only where the sink's count of faults rose,
/// and then a prefix of the text was taken. It takes no memory.
pub fn put_text<S: Sink>(text: &[u8], sink: &mut S) -> Result<(), Failed>
    ensures { Puts (S.taken sink.old) (S.taken sink.new) (S.faults sink.old) (S.faults sink.new)
        text.now result }
{
    put_pieces(text, PIECE, sink)
}

// The size is a parameter, so that no goal computes with it.
fn put_pieces<S: Sink>(text: &[u8], size: usize, sink: &mut S) -> Result<(), Failed>
    requires { 0 < size }
    ensures { Puts (S.taken sink.old) (S.taken sink.new) (S.faults sink.old) (S.faults sink.new)
        text.now result }
{
    let mut rest = text;
    while rest.len() > size {
        let (front, back) = rest.split_at(size);
        if let Err(failed) = sink.put(front) {
            return Err(failed);
        }
        rest = back;
    }
    if rest.is_empty() {
        return Ok(());
    }
    sink.put(rest)
}
