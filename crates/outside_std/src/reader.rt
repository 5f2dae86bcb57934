//! Readers of the standard library as sources.
ghost use Rattle.std.specs.Prelude.{◌≡◌, ◌<◌, ◌≤◌, List, ℕ, None, false, length};
ghost use Rattle.std.specs.Io.{ReadsAtMost};
ghost use Rattle.std.specs.Io.KnownBytes.{ReadConsumes};

use outside::{Read, Source};
use std::io;
use std::io::{ErrorKind, Stdin};

/// A reader as a source. A read that a signal interrupts is made again; any other error counts.
///
/// It tells no content. Where the reader itself tells what it has left, `read` says that the bytes
/// went through as they are.
#[derive(Drop)]
pub struct ReaderSource<R> {
    reader: R,
    ended: bool,
    faults: u64,
}

/// Standard input, read with no buffer of its own.
pub type StdInput = ReaderSource<Stdin>;

impl<R: io::Read> ReaderSource<R> {
    ghost use Rattle.outside_std.specs.Adapters.{reader_of};

    /// A source of what the reader gives from here on.
    pub fn new(reader: R) -> Self
        ensures reader { reader_of result ≡ reader }
        ensures ended { ⟦<Self as Source>⟧.ended result ≡ false }
        ensures faults { ⟦<Self as Source>⟧.faults result ≡ 0 }
    {
        ReaderSource {
            reader,
            ended: false,
            faults: 0,
        }
    }

    /// How often a read has failed. A count of 2^64 - 1 stays there.
    pub fn faults(&self) -> u64
        ensures { result ≡ ⟦<Self as Source>⟧.faults self.now }
    {
        self.faults
    }
}

impl<R: io::Read> Source for ReaderSource<R> {
    ghost use Rattle.outside.specs.Calls.{Reads, Ends, Leaves, ReadCounts};
    ghost use Rattle.outside_std.specs.Passing.{Gives};
    ghost use Rattle.outside_std.specs.Adapters.{reader_of};

    ghost given = { λ _. None };

    ghost left = { λ _. None };

    ghost ended = { λ s. s.ended };

    ghost faults = { λ s. s.faults };

    /// As `Source::read`.
    fn read(&mut self, into: &mut [u8]) -> Read
        requires { 0 < length into.old }
        ensures bytes { Reads None None into.new result }
        ensures left { Leaves None None into.new result }
        ensures end { Ends (⟦<Self as Source>⟧.ended self.old)
            (⟦<Self as Source>⟧.ended self.new) result }
        ensures cause { ReadCounts (⟦<Self as Source>⟧.faults self.old)
            (⟦<Self as Source>⟧.faults self.new) result }
        ensures through { Gives (R.remaining (reader_of self.old))
            (R.remaining (reader_of self.new)) into.new result }
    {
        match read_unbroken(&mut self.reader, into) {
            Ok(0) => {
                self.ended = true;
                Read::End
            }
            Ok(count) => Read::Got(count),
            Err(_) => {
                self.faults = self.faults.saturating_add(1);
                Read::Failed
            }
        }
    }
}

// One read, made again where a signal interrupts it.
fn read_unbroken<R: io::Read>(reader: &mut R, into: &mut [u8]) -> io::Result<usize>
    ensures bound { ReadsAtMost result into.new }
    ensures bytes { ReadConsumes (R.remaining reader.old) (R.remaining reader.new) result into.new }
{
    'tries: for _ in 0..u64::MAX {
        match reader.read(into) {
            Err(error) if error.kind() == ErrorKind::Interrupted => {}
            answer => return answer,
        }
    }
    Err(io::Error::from(ErrorKind::Interrupted))
}
