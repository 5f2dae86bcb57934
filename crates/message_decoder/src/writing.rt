//! Lines of the output.
ghost use Rattle.std.specs.Prelude.{◌≡◌};
ghost use Rattle.outside.specs.Seen.{sink_seen};
ghost use Rattle.message_decoder.specs.Decoding.{ended};
ghost use Rattle.message_decoder.specs.Streams.{Writes};

use crate::halt::Halt;
use outside::{Sink, write_all};
use text_printer::Printed;

/// Writes a line and its line feed.
pub fn write_line<K: Sink>(output: &mut K, line: Printed) -> Result<(), Halt>
    ensures { Writes (λ text. text ≡ ended line) (sink_seen K.taken K.faults output.old)
        (sink_seen K.taken K.faults output.new) result }
{
    let mut text = line;
    text.push(b'\n')?;
    write(output, text.as_slice())
}

// Writes a whole text.
fn write<K: Sink>(output: &mut K, text: &[u8]) -> Result<(), Halt>
    ensures { Writes (λ all. all ≡ text.now) (sink_seen K.taken K.faults output.old)
        (sink_seen K.taken K.faults output.new) result }
{
    match write_all(output, text) {
        Ok(()) => Ok(()),
        Err(_) => Err(Halt::Write),
    }
}
