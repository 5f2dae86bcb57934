//! A whole piece into a sink.
ghost use Rattle.std.specs.Prelude.{◌<◌, ◌≤◌, ◌≡◌, ◌++◌, List, ℕ, length, OnOk, OnErr};
ghost use Rattle.outside.specs.Told.{Grows, counted};

use crate::sink::{Sink, Write};
use thiserror::Error;

/// A sink failed, and counted one fault.
#[derive(Clone, Copy, Debug, PartialEq, Eq, Error)]
#[error("write fault")]
pub struct WriteFault;

/// Writes the whole piece, in as many calls as it takes. Of an empty piece nothing is written.
///
/// After an error the sink took some bytes from the front of the piece, each of them once, and not
/// all.
pub fn write_all<K: Sink>(sink: &mut K, piece: &[u8]) -> Result<(), WriteFault>
    ensures ok { OnOk result (Grows (K.taken sink.old) (K.taken sink.new) piece.now) }
    ensures err { OnErr result ((part : List ℕ) × (rest : List ℕ) × (piece.now ≡ part ++ rest)
        × (0 < length rest) × Grows (K.taken sink.old) (K.taken sink.new) part) }

    // One fault is counted where the sink failed, and none else.
    ensures cause { OnErr result (K.faults sink.new ≡ counted (K.faults sink.old)) }
    ensures same { OnOk result (K.faults sink.new ≡ K.faults sink.old) }
    ensures later { K.faults sink.old ≤ K.faults sink.new }
{
    let mut written = 0;
    'rests: while written < piece.len() {
        match sink.write(&piece[written..]) {
            Write::Wrote(count) => written += count,
            Write::Failed => return Err(WriteFault),
        }
    }
    Ok(())
}
