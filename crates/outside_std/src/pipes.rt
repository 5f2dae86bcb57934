//! The pipes of a child as a source and a sink.
ghost use Rattle.std.specs.Prelude.{◌≡◌, ◌<◌, ◌≤◌, List, ℕ, None, false, length};
ghost use Rattle.std.specs.Io.{ReadsAtMost, WritesAtMost};
ghost use Rattle.std.specs.Io.KnownBytes.{WriteAppends};
ghost use Rattle.outside_std.specs.Passing.{ReadGivesFront};

use crate::failure::is_passing;
use crate::post::Tie;
use outside::{Read, Sink, Source, Write};
use std::io;
use std::io::ErrorKind;
use std::os::fd::AsFd;
use std::process::{ChildStdin, ChildStdout};
use wires::{PlainWriter, Watch, Woken};

// How many milliseconds pass at most before the end of a child that has just written is noticed, where its pipe stays
// open. Each further look comes after twice the time of the last, so that a child that writes nothing costs little.
const LOOK: u32 = 100;

// How many milliseconds pass at most between two looks.
const LONGEST: u32 = 1_600;

// After so many looks without room, a minute, the child is taken for one that never reads.
const LOOKS: u32 = 600;

/// What a child writes, read through a pipe whose calls don't wait. `read` waits at the bell of the
/// slot's reader, without limit.
///
/// `End` comes where the pipe is at its end. It comes too where nothing stands ready and the child
/// was killed, has ended, or the bell is closed: a program that the child started may keep the pipe
/// open for long. Behind an end or a fault the child's sink no longer waits.
#[derive(Debug, Drop)]
pub struct ChildSource<'a, R> {
    reader: R,
    tie: Tie<'a>,
    watch: Watch,
    ended: bool,
    faults: u64,
}

/// The source of a program's standard output.
pub type PipeSource<'a> = ChildSource<'a, ChildStdout>;

impl<'a, R: io::Read + AsFd> ChildSource<'a, R> {
    // What the tied and watched child writes.
    pub(crate) fn new(reader: R, tie: Tie<'a>, watch: Watch) -> Self
        ensures ended { result.ended ≡ false }
        ensures faults { result.faults ≡ 0 }
    {
        ChildSource {
            reader,
            tie,
            watch,
            ended: false,
            faults: 0,
        }
    }

    /// How often a read has failed. A count of 2^64 - 1 stays there.
    pub fn faults(&self) -> u64
        ensures { result ≡ ⟦<Self as Source>⟧.faults self.now }
    {
        self.faults
    }
}

impl<R: io::Read + AsFd> Source for ChildSource<'_, R> {
    ghost use Rattle.outside.specs.Calls.{Reads, Ends, Leaves, ReadCounts};
    ghost use Rattle.outside_std.specs.Passing.{GivesFront};
    ghost use Rattle.outside_std.specs.Adapters.{child_reader_of};

    ghost given = { λ _. None };

    ghost left = { λ _. None };

    ghost ended = { λ s. s.ended };

    ghost faults = { λ s. s.faults };

    /// As `Source::read`.
    fn read(&mut self, into: &mut [u8]) -> Read
        requires { 0 < length into.old }
        ensures bytes { Reads None None into.new result }
        ensures left { Leaves None None into.new result }
        ensures end { Ends (⟦<Self as Source>⟧.ended self.old)
            (⟦<Self as Source>⟧.ended self.new) result }
        ensures cause { ReadCounts (⟦<Self as Source>⟧.faults self.old)
            (⟦<Self as Source>⟧.faults self.new) result }
        ensures through { GivesFront (R.remaining (child_reader_of self.old))
            (R.remaining (child_reader_of self.new)) into.new result }
    {
        match read_from_child(&mut self.reader, self.tie, &self.watch, into) {
            Ok(0) => {
                self.tie.hang_up();
                self.ended = true;
                Read::End
            }
            Ok(count) => Read::Got(count),
            Err(_) => {
                self.tie.hang_up();
                self.faults = self.faults.saturating_add(1);
                Read::Failed
            }
        }
    }
}

// One read, made again behind each wait. What was written before the end was seen is read before 0
// is answered, since one more look follows.
fn read_from_child<R: io::Read + AsFd>(
    reader: &mut R,
    tie: Tie<'_>,
    watch: &Watch,
    into: &mut [u8],
) -> io::Result<usize>
    ensures bound { ReadsAtMost result into.new }
    ensures bytes { ReadGivesFront (R.remaining reader.old) (R.remaining reader.new) result
        into.new }
{
    let mut over = false;
    let mut look = LOOK;
    'looks: for _ in 0..u64::MAX {
        match reader.read(into) {
            Err(error) if is_passing(&error) => {
                if over {
                    return Ok(0);
                }
                over = waits_for_the_last(reader, tie, watch, look);
                look = look.saturating_mul(2).min(LONGEST);
            }
            answer => return answer,
        }
    }
    Err(io::Error::from(ErrorKind::TimedOut))
}

// Waits at the pipe unless the child is over, and says whether only what was written before is to
// come. The system is asked only where a wait of so many milliseconds has ended with nothing.
fn waits_for_the_last<R: AsFd>(reader: &R, tie: Tie<'_>, watch: &Watch, look: u32) -> bool {
    if tie.is_over() || tie.reading().is_closed() {
        return true;
    }
    tie.reading().wait_to_read(reader, look) == Woken::Quiet && watch.has_ended()
}

/// What a child reads, written through a pipe whose calls don't wait. `write` waits for room for at
/// most 60 s, and hears no ring.
///
/// It fails where nobody reads the pipe any more. Where the pipe is full it fails once the time is
/// up, the child was killed, its source has ended or failed, or the bell of the slot's replier is
/// closed.
#[derive(Debug, Drop)]
pub struct ChildSink<'a, W> {
    writer: W,
    tie: Tie<'a>,
    faults: u64,
}

/// The sink of a program's standard input.
pub type PipeSink<'a> = ChildSink<'a, PlainWriter<ChildStdin>>;

impl<'a, W: io::Write + AsFd> ChildSink<'a, W> {
    // What the tied child reads.
    pub(crate) fn new(writer: W, tie: Tie<'a>) -> Self
        ensures { result.faults ≡ 0 }
    {
        ChildSink {
            writer,
            tie,
            faults: 0,
        }
    }

    /// How often a write has failed. A count of 2^64 - 1 stays there.
    pub fn faults(&self) -> u64
        ensures { result ≡ ⟦<Self as Sink>⟧.faults self.now }
    {
        self.faults
    }
}

impl<W: io::Write + AsFd> Sink for ChildSink<'_, W> {
    ghost use Rattle.outside.specs.Calls.{Writes, WriteCounts};
    ghost use Rattle.outside_std.specs.Passing.{Takes};
    ghost use Rattle.outside_std.specs.Adapters.{child_writer_of};

    ghost taken = { λ _. None };

    ghost faults = { λ s. s.faults };

    /// As `Sink::write`.
    fn write(&mut self, piece: &[u8]) -> Write
        requires { 0 < length piece.now }
        ensures bytes { Writes None None piece.now result }
        ensures cause { WriteCounts (⟦<Self as Sink>⟧.faults self.old)
            (⟦<Self as Sink>⟧.faults self.new) result }
        ensures through { Takes (W.contents (child_writer_of self.old))
            (W.contents (child_writer_of self.new)) piece.now result }
    {
        match write_to_child(&mut self.writer, self.tie, LOOKS, piece) {
            Ok(0) | Err(_) => {
                self.faults = self.faults.saturating_add(1);
                Write::Failed
            }
            Ok(count) => Write::Wrote(count),
        }
    }
}

// One write, made again behind each wait for room, at most so often.
pub(crate) fn write_to_child<W: io::Write + AsFd>(
    writer: &mut W,
    tie: Tie<'_>,
    looks: u32,
    piece: &[u8],
) -> io::Result<usize>
    ensures bound { WritesAtMost result piece.now }
    ensures bytes { WriteAppends (W.contents writer.old) (W.contents writer.new) result piece.now }
{
    'looks: for _ in 0..looks {
        match writer.write(piece) {
            Err(error) if is_passing(&error) => {
                if tie.is_over() || tie.writing().is_closed() {
                    return Err(error);
                }
                tie.writing().rest_to_write(writer, LOOK);
            }
            answer => return answer,
        }
    }
    Err(io::Error::from(ErrorKind::TimedOut))
}
