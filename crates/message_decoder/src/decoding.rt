//! The lines of a stream, told as they come.
ghost use Rattle.std.specs.Prelude.{◌≡◌, ◌+◌, ◌<◌, ◌≤◌, ◌^◌, List, ℕ, [], length, OnOk};
ghost use Rattle.outside.specs.Seen.{sink_seen, source_seen};
ghost use Rattle.message_decoder.specs.Decoding.{ended};
ghost use Rattle.message_decoder.specs.Streams.{AreDecoded, Decodes, Finishes, HasNoFeed};
ghost use Rattle.message_decoder.specs.Streams.{TakesPiece};

use crate::answering::answer_line;
use crate::halt::Halt;
use outside::{Read, Sink, Source};
use route_values::Caps;
use std::alloc::Global;
use text_forms::cut;

// How many bytes one call of a source is asked for at most: what a pipe holds on Linux.
const BUFFER: usize = 65_536;

// Where decoding stands: behind so many lines, and these bytes of the next one.
#[derive(Drop)]
struct Place {
    number: u64,
    held: Vec<u8>,
}

/// Reads a source to its end, which has to come before `limit` bytes were given, and writes what each of its lines
/// tells.
///
/// A line ends with a line feed; what stands behind the last one is a line too, unless it is empty. Blank lines and the
/// replies `done`, `error`, `error memory` and `nothing` are passed over, and counted. For any other line there comes a
/// command line for each effect of its message, in order, or `# unprintable` where no command can write the effect; or
/// one line `# refused L KIND`, where L is the line's number, from 1. What a line tells is written before more is read.
///
/// It holds the line that it stands in and what reading that takes, so that the memory grows with the longest line.
/// After an error the output is a front part of one that belongs to a front of what was read. Where the limit is
/// reached, what the last call of the source gave isn't told any more.
pub fn decode_all<S: Source, K: Sink>(
    alloc: Global,
    caps: &Caps,
    limit: usize,
    input: &mut S,
    output: &mut K,
) -> Result<(), Halt>
    ensures { Decodes limit caps.now (source_seen S.given S.left S.ended S.faults input.old)
        (source_seen S.given S.left S.ended S.faults input.new)
        (sink_seen K.taken K.faults output.old) (sink_seen K.taken K.faults output.new) result }
{
    let mut place = Place {
        number: 0,
        held: Vec::new(alloc),
    };
    let mut count = 0;
    let mut buffer = [0; BUFFER];
    'pieces: while count < limit {
        let room = buffer.len().min(limit - count);
        match input.read(&mut buffer[..room]) {
            Read::Got(got) => {
                count += got;
                if count == limit {
                    return Err(Halt::Long);
                }
                answer_piece(alloc, caps, &mut place, &buffer[..got], output)?;
            }
            Read::End => return answer_last(alloc, caps, &place, output),
            Read::Failed => return Err(Halt::Read),
        }
    }
    Err(Halt::Long)
}

// Answers the lines that end in a piece, and holds what stands behind them.
fn answer_piece<K: Sink>(
    alloc: Global,
    caps: &Caps,
    place: &mut Place,
    piece: &[u8],
    output: &mut K,
) -> Result<(), Halt>
    requires few { place.old.number + length piece.now < 2 ^ 64 }
    ensures took { TakesPiece caps.now piece.now place.old.held.items place.new.held.items
        place.old.number place.new.number (sink_seen K.taken K.faults output.old)
        (sink_seen K.taken K.faults output.new) result }
    ensures count { OnOk result (place.new.number ≤ place.old.number + length piece.now) }
{
    let mut rest = piece;
    'lines: while let Some((part, behind)) = cut(rest, b'\n') {
        answer_ended(alloc, caps, place, part, output)?;
        rest = behind;
    }
    place.held.extend_from_slice(rest)?;
    Ok(())
}

// Answers the line that this part and a line feed behind it end.
fn answer_ended<K: Sink>(
    alloc: Global,
    caps: &Caps,
    place: &mut Place,
    part: &[u8],
    output: &mut K,
) -> Result<(), Halt>
    requires few { place.old.number + 1 < 2 ^ 64 }
    requires no_feed { HasNoFeed part.now }
    ensures took { TakesPiece caps.now (ended part.now) place.old.held.items place.new.held.items
        place.old.number place.new.number (sink_seen K.taken K.faults output.old)
        (sink_seen K.taken K.faults output.new) result }
    ensures count { OnOk result (place.new.number ≡ place.old.number + 1) }
{
    place.held.extend_from_slice(part)?;
    place.number += 1;
    answer_line(alloc, caps, place.number, &place.held, output)?;
    place.held.clear();
    Ok(())
}

// Answers the line that no line feed ended, if there is one.
fn answer_last<K: Sink>(
    alloc: Global,
    caps: &Caps,
    place: &Place,
    output: &mut K,
) -> Result<(), Halt>
    requires { place.now.number + 1 < 2 ^ 64 }
    ensures { (bytes : List ℕ) (text : List ℕ)
        → AreDecoded caps.now bytes place.now.held.items text place.now.number
        → Finishes caps.now bytes text (sink_seen K.taken K.faults output.old)
        (sink_seen K.taken K.faults output.new) result }
{
    if place.held.is_empty() {
        return Ok(());
    }
    answer_line(alloc, caps, place.number + 1, &place.held, output)
}
