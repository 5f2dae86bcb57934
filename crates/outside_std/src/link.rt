//! A TCP connection as a link.
ghost use Rattle.std.specs.Prelude.{◌≡◌, ◌<◌, ◌≤◌, List, ℕ, None, false, length};
ghost use Rattle.std.specs.Io.{ReadsAtMost, WritesAtMost};
ghost use Rattle.std.specs.Io.KnownBytes.{ReadConsumes, WriteAppends};

use crate::failure::is_passing;
use outside::{Link, Recv, Write};
use std::io;
use std::io::ErrorKind;
use std::net::{Shutdown, TcpStream};
use std::os::fd::AsFd;
use wires::{Bell, Woken};

// How many milliseconds a call waits for bytes at most.
const WAIT: u32 = 500;

// After so many milliseconds without room the peer is taken for dead.
const LIMIT: u32 = 60_000;

/// A stream whose calls don't wait as a link, which waits at its worker's bell.
///
/// `recv` waits for at most 500 ms, or until a ring, and looks once more behind that: `Quiet` comes
/// only where nothing stood ready at the last look. `send` hears no ring. It waits for room for at
/// most 60 s, and fails then, or once the bell is closed.
///
/// It tells no content. Where the stream itself tells what it has left and holds, `recv` and `send`
/// say that the bytes went through as they are.
#[derive(Debug, Drop)]
pub struct StreamLink<'a, S> {
    stream: S,
    bell: &'a Bell,
    ended: bool,
    faults: u64,
}

/// A TCP connection to a peer.
pub type TcpLink<'a> = StreamLink<'a, TcpStream>;

impl TcpLink<'_> {
    // Ends sending, so that what was sent last arrives before the connection is closed.
    pub(crate) fn finish(&self) {
        let _ = self.stream.shutdown(Shutdown::Write);
    }
}

impl<'a, S: io::Read + io::Write + AsFd> StreamLink<'a, S> {
    // A link over a stream whose calls don't wait.
    pub(crate) fn new(stream: S, bell: &'a Bell) -> Self
        ensures ended { result.ended ≡ false }
        ensures faults { result.faults ≡ 0 }
    {
        StreamLink {
            stream,
            bell,
            ended: false,
            faults: 0,
        }
    }

    /// How often it has failed. A count of 2^64 - 1 stays there.
    pub fn faults(&self) -> u64
        ensures { result ≡ ⟦<Self as Link>⟧.faults self.now }
    {
        self.faults
    }
}

impl<S: io::Read + io::Write + AsFd> Link for StreamLink<'_, S> {
    ghost use Rattle.outside.specs.Calls.{Writes, WriteCounts};
    ghost use Rattle.outside.specs.Receiving.{Receives, Notes, told_length, Closes, RecvCounts};
    ghost use Rattle.outside_std.specs.Passing.{Hears, Takes};
    ghost use Rattle.outside_std.specs.Adapters.{stream_of};

    ghost given = { λ _. None };

    ghost taken = { λ _. None };

    ghost quiets = { λ _. None };

    ghost ended = { λ l. l.ended };

    ghost faults = { λ l. l.faults };

    ghost dialled = { λ _. None };

    /// As `Link::recv`.
    fn recv(&mut self, into: &mut [u8]) -> Recv
        requires { 0 < length into.old }
        ensures bytes { Receives None None into.new result }
        ensures quiet { Notes None None None result }
        ensures end { Closes (⟦<Self as Link>⟧.ended self.old) (⟦<Self as Link>⟧.ended self.new)
            result }
        ensures cause { RecvCounts (⟦<Self as Link>⟧.faults self.old)
            (⟦<Self as Link>⟧.faults self.new) result }
        ensures taken { ⟦<Self as Link>⟧.taken self.new ≡ ⟦<Self as Link>⟧.taken self.old }
        ensures dialled { ⟦<Self as Link>⟧.dialled self.new ≡ ⟦<Self as Link>⟧.dialled self.old }
        ensures through { Hears (S.remaining (stream_of self.old))
            (S.remaining (stream_of self.new)) into.new result }
    {
        match read_in_time(&mut self.stream, self.bell, into) {
            Ok(0) => {
                self.ended = true;
                Recv::End
            }
            Ok(count) => Recv::Got(count),
            Err(error) if is_passing(&error) => Recv::Quiet,
            Err(_) => {
                self.faults = self.faults.saturating_add(1);
                Recv::Failed
            }
        }
    }

    /// As `Link::send`.
    fn send(&mut self, piece: &[u8]) -> Write
        requires { 0 < length piece.now }
        ensures bytes { Writes None None piece.now result }
        ensures cause { WriteCounts (⟦<Self as Link>⟧.faults self.old)
            (⟦<Self as Link>⟧.faults self.new) result }
        ensures given { ⟦<Self as Link>⟧.given self.new ≡ ⟦<Self as Link>⟧.given self.old }
        ensures quiets { ⟦<Self as Link>⟧.quiets self.new ≡ ⟦<Self as Link>⟧.quiets self.old }
        ensures ended { ⟦<Self as Link>⟧.ended self.new ≡ ⟦<Self as Link>⟧.ended self.old }
        ensures dialled { ⟦<Self as Link>⟧.dialled self.new ≡ ⟦<Self as Link>⟧.dialled self.old }
        ensures through { Takes (S.contents (stream_of self.old))
            (S.contents (stream_of self.new)) piece.now result }
    {
        match write_in_time(&mut self.stream, self.bell, piece) {
            Ok(0) | Err(_) => {
                self.faults = self.faults.saturating_add(1);
                Write::Failed
            }
            Ok(count) => Write::Wrote(count),
        }
    }
}

// One read, and one more behind a wait where nothing stood ready.
fn read_in_time<R: io::Read + AsFd>(
    reader: &mut R,
    bell: &Bell,
    into: &mut [u8],
) -> io::Result<usize>
    ensures bound { ReadsAtMost result into.new }
    ensures bytes { ReadConsumes (R.remaining reader.old) (R.remaining reader.new) result into.new }
{
    match reader.read(into) {
        Err(error) if is_passing(&error) => {
            bell.wait_to_read(reader, WAIT);
            reader.read(into)
        }
        answer => answer,
    }
}

// One write, made again behind each wait for room.
fn write_in_time<W: io::Write + AsFd>(
    writer: &mut W,
    bell: &Bell,
    piece: &[u8],
) -> io::Result<usize>
    ensures bound { WritesAtMost result piece.now }
    ensures bytes { WriteAppends (W.contents writer.old) (W.contents writer.new) result piece.now }
{
    'tries: for _ in 0..u64::MAX {
        match writer.write(piece) {
            Err(error) if is_passing(&error) => {
                if bell.rest_to_write(writer, LIMIT) == Woken::Quiet {
                    return Err(error);
                }
            }
            answer => return answer,
        }
    }
    Err(io::Error::from(ErrorKind::TimedOut))
}
