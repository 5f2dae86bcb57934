//! Writers of the standard library as sinks.
ghost use Rattle.std.specs.Prelude.{◌≡◌, ◌<◌, ◌≤◌, List, ℕ, None, length};
ghost use Rattle.std.specs.Io.{WritesAtMost};
ghost use Rattle.std.specs.Io.KnownBytes.{WriteAppends};

use outside::{Sink, Write};
use std::io;
use std::io::{ErrorKind, Stdout};

/// A writer as a sink. A write that a signal interrupts is made again; any other error, and a write
/// that takes no byte, counts.
///
/// It tells no content. Where the writer itself tells what it holds, `write` says that the bytes
/// went through as they are. It keeps no byte back: what `write` took is with the writer.
#[derive(Drop)]
pub struct WriterSink<W> {
    writer: W,
    faults: u64,
}

/// Standard output, written with no buffer, so that there is nothing to flush.
pub type StdOutput = WriterSink<Stdout>;

impl<W: io::Write> WriterSink<W> {
    ghost use Rattle.outside_std.specs.Adapters.{writer_of};

    /// A sink over this writer.
    pub fn new(writer: W) -> Self
        ensures writer { writer_of result ≡ writer }
        ensures faults { ⟦<Self as Sink>⟧.faults result ≡ 0 }
    {
        WriterSink { writer, faults: 0 }
    }

    /// How often a write has failed. A count of 2^64 - 1 stays there.
    pub fn faults(&self) -> u64
        ensures { result ≡ ⟦<Self as Sink>⟧.faults self.now }
    {
        self.faults
    }
}

impl<W: io::Write> Sink for WriterSink<W> {
    ghost use Rattle.outside.specs.Calls.{Writes, WriteCounts};
    ghost use Rattle.outside_std.specs.Passing.{Takes};
    ghost use Rattle.outside_std.specs.Adapters.{writer_of};

    ghost taken = { λ _. None };

    ghost faults = { λ s. s.faults };

    /// As `Sink::write`.
    fn write(&mut self, piece: &[u8]) -> Write
        requires { 0 < length piece.now }
        ensures bytes { Writes None None piece.now result }
        ensures cause { WriteCounts (⟦<Self as Sink>⟧.faults self.old)
            (⟦<Self as Sink>⟧.faults self.new) result }
        ensures through { Takes (W.contents (writer_of self.old))
            (W.contents (writer_of self.new)) piece.now result }
    {
        match write_unbroken(&mut self.writer, piece) {
            Ok(0) | Err(_) => {
                self.faults = self.faults.saturating_add(1);
                Write::Failed
            }
            Ok(count) => Write::Wrote(count),
        }
    }
}

// One write, made again where a signal interrupts it.
fn write_unbroken<W: io::Write>(writer: &mut W, piece: &[u8]) -> io::Result<usize>
    ensures bound { WritesAtMost result piece.now }
    ensures bytes { WriteAppends (W.contents writer.old) (W.contents writer.new) result piece.now }
{
    'tries: for _ in 0..u64::MAX {
        match writer.write(piece) {
            Err(error) if error.kind() == ErrorKind::Interrupted => {}
            answer => return answer,
        }
    }
    Err(io::Error::from(ErrorKind::Interrupted))
}
