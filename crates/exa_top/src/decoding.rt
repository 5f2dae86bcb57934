//! Messages, told as command lines.
ghost use Rattle.std.specs.Prelude.{◌≡◌, List, ℕ, Option};
ghost use Rattle.outside.specs.Seen.{source_seen, sink_seen};
ghost use Rattle.exa_top.specs.Decoded.{status_halted};
ghost use Rattle.exa_top.specs.Top.{Answered};
ghost use Rattle.exa_top.specs.declared.words.TextCommand.TheVariants.{Decode};

use crate::top::MAX_INPUT;
use message_decoder::{Halt, decode_all};
use outside::{Sink, Source};
use route_values::Caps;
use script_play::Status;
use std::alloc::Global;

/// Reads messages of a session with these capabilities to the end of the input, and writes what each does as it comes.
pub fn decode<S: Source, K: Sink>(
    alloc: Global,
    caps: &Caps,
    input: &mut S,
    output: &mut K,
) -> Status
    ensures { (content : Option (List ℕ → List ℕ)) → Answered content (Decode caps.now)
        (source_seen S.given S.left S.ended S.faults input.old)
        (source_seen S.given S.left S.ended S.faults input.new)
        (sink_seen K.taken K.faults output.old) (sink_seen K.taken K.faults output.new) result }
{
    match decode_all(alloc, caps, MAX_INPUT, input, output) {
        Ok(()) => Status::Ok,
        Err(halt) => status_of(halt),
    }
}

// How the command ends where decoding halted.
fn status_of(halt: Halt) -> Status
    ensures { result ≡ status_halted halt }
{
    match halt {
        Halt::Memory => Status::NoMemory,
        Halt::Read => Status::ReadFault,
        Halt::Write => Status::WriteFault,
        Halt::Long => Status::InputLong,
    }
}
