//! Lines of the output.
ghost use Rattle.outside.specs.Seen.{sink_seen};
ghost use Rattle.script_play.specs.Writing.{Writes};

use crate::halt::Halt;
use outside::{Sink, write_all};

/// Writes a whole text.
pub fn write<K: Sink>(output: &mut K, text: &[u8]) -> Result<(), Halt>
    ensures { Writes text.now (sink_seen K.taken K.faults output.old)
        (sink_seen K.taken K.faults output.new) result }
{
    match write_all(output, text) {
        Ok(()) => Ok(()),
        Err(_) => Err(Halt::Write),
    }
}
