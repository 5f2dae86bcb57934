//! The answer to a line.
ghost use Rattle.outside.specs.Seen.{sink_seen};
ghost use Rattle.message_decoder.specs.Decoding.{IsAnswer, IsRemark};
ghost use Rattle.message_decoder.specs.Streams.{Writes};

use crate::effects::write_effects;
use crate::halt::Halt;
use crate::passing::is_passed_over;
use crate::writing::write_line;
use outside::Sink;
use route_values::Caps;
use std::alloc::Global;
use text_printer::{Unread, print_refusal, read_message};

/// Writes what the line of this number tells: its effects, or why it tells nothing. Where memory is wanting before its
/// first line is written, nothing is.
pub fn answer_line<K: Sink>(
    alloc: Global,
    caps: &Caps,
    number: u64,
    line: &[u8],
    output: &mut K,
) -> Result<(), Halt>
    ensures { Writes (IsAnswer caps.now number line.now) (sink_seen K.taken K.faults output.old)
        (sink_seen K.taken K.faults output.new) result }
{
    if is_passed_over(line) {
        return Ok(());
    }
    match read_message(alloc, line, caps) {
        Ok(effects) => write_effects(alloc, &effects, output),
        Err(unread) => write_refusal(alloc, number, &unread, output),
    }
}

fn write_refusal<K: Sink>(
    alloc: Global,
    number: u64,
    unread: &Unread,
    output: &mut K,
) -> Result<(), Halt>
    ensures { Writes (IsRemark number unread.now) (sink_seen K.taken K.faults output.old)
        (sink_seen K.taken K.faults output.new) result }
{
    let remark = print_refusal(alloc, number, unread)?;
    write_line(output, remark)
}
