// What the two sinks take of an answer.
ghost use Rattle.std.specs.Prelude.{◌≡◌, ◌≤◌};
ghost use Rattle.rpt_outside.specs.Seen.{put_to};
ghost use Rattle.rpt_outside.specs.Whole.{bytes_of};
ghost use Rattle.refusal_lines.specs.Message.{status_of};
ghost use Rattle.rpt_cli.specs.Delivery.{Delivers, TakesLine};

use refusal_lines::{Refusal, put_line, put_text, status};
use rpt_outside::Sink;

/// Puts the text, or the line of the refusal, and gives the status.
pub(crate) fn deliver<S: Sink, M: Sink>(
    found: Result<Vec<u8>, Refusal>,
    out: &mut S,
    messages: &mut M,
) -> u8
    ensures delivers { Delivers (put_to S.Sink out.old out.new) (put_to M.Sink messages.old messages.new)
        result (bytes_of found) }
    ensures later { (S.faults out.old ≤ S.faults out.new)
        × (M.faults messages.old ≤ M.faults messages.new) }
{
    match found {
        Ok(text) => match put_text(&text, out) {
            Ok(()) => 0,
            Err(_) => refuse(&Refusal::WriteFault, messages),
        },
        Err(refusal) => refuse(&refusal, messages),
    }
}

// A fault while the line is put ends the line, and doesn't change the status.
fn refuse<M: Sink>(refusal: &Refusal, messages: &mut M) -> u8
    ensures status { result ≡ status_of refusal.now }
    ensures line { TakesLine (put_to M.Sink messages.old messages.new) refusal.now }
    ensures later { M.faults messages.old ≤ M.faults messages.new }
{
    let _ = put_line(refusal, messages);
    status(refusal)
}
