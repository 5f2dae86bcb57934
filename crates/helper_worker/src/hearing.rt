//! All that a helper writes.
ghost use Rattle.std.specs.Prelude.{◌≡◌, ◌<◌};
ghost use Rattle.config_model.specs.Limits.{max_helpers};
ghost use Rattle.helper_worker.specs.Hearing.{Hears};

use crate::piece::enter_piece;
use crate::ringing::ring_all;
use book_core::Book;
use book_gate::{Gate, Pass};
use line_cutter::LineCutter;
use outside::{Pause, Read, Source};
use std::alloc::Global;
use std::sync::Wait;

// How many bytes are read at once: what a pipe holds on Linux.
const BUFFER: usize = 65_536;

// Rings for those for whom the lines that end in a piece may have given work.
fn ring_behind<P: Pause>(pause: P, h: usize, piece: &[u8]) {
    if piece.contains(&b'\n') {
        ring_all(pause, h);
    }
}

/// Enters the lines of a source until it ends or fails, or it was answered that the helper has ended. Behind each piece
/// those are rung for whom its lines may have given work.
pub fn hear<R: Wait, P: Pause, S: Source>(
    rt: &R,
    alloc: Global,
    gate: &Gate<Book>,
    pass: &mut Pass<Book>,
    pause: P,
    h: usize,
    inc: u64,
    cutter: &mut LineCutter,
    source: &mut S,
)
    requires gate { pass.old.gate ≡ gate.now }
    requires slot { h < max_helpers }
    ensures { Hears pass.old h inc (S.given source.old) (S.given source.new) (S.ended source.new)
        (S.faults source.new) pass.new }
{
    cutter.reset();
    let mut buffer = [0; BUFFER];
    for _ in rt.forever() {
        match source.read(&mut buffer) {
            Read::Got(got) => {
                if !enter_piece(rt, alloc, gate, pass, pause, h, inc, cutter, &buffer[..got]) {
                    return;
                }
                ring_behind(pause, h, &buffer[..got]);
            }
            Read::End => return,
            Read::Failed => return,
        }
    }
    unreachable!()
}
