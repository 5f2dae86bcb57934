//! A script, played line by line.
ghost use Rattle.std.specs.Prelude.{◌≡◌, ◌+◌, ◌<◌, ◌≤◌, ◌^◌, OnOk, length};
ghost use Rattle.outside.specs.Lent.{LendsNone};
ghost use Rattle.outside.specs.Seen.{sink_seen, source_seen};
ghost use Rattle.script_grammar.specs.Events.{Says, event_told};
ghost use Rattle.script_grammar.specs.Laws.{HasSlot};
ghost use Rattle.script_grammar.specs.Reading.{script_line};
ghost use Rattle.script_play.specs.Streams.{HasNoFeed, Plays, PlaysLast, PlaysLine, PlaysPiece};
ghost use Rattle.script_play.specs.Streams.{ended, status_by};

use crate::halt::Halt;
use crate::player::Player;
use crate::status::Status;
use answer_texts::texts_follow;
use config_model::Config;
use outside::{Files, Read, Sink, Source};
use script_grammar::{Event, MAX_SCRIPT_LINE, ScriptLine, read_script_line, script_lines_say_one};
use std::alloc::Global;
use text_forms::cut;
use text_history::histories_go_on;

// How many bytes of input are too many.
const MAX_INPUT: usize = 1 << 40;

// How many bytes one call of a source is asked for at most: what a pipe holds on Linux.
const BUFFER: usize = 65_536;

// Where a script stands: behind so many lines, and these bytes of the next one.
#[derive(Drop)]
struct Place {
    number: u64,
    held: Vec<u8>,
}

/// Plays a script over a newly opened book: enters the event of each line, and writes what it is answered before more
/// is read.
///
/// A line ends with a line feed; what stands behind the last one is a line too, unless it is empty. A line is looked at
/// once its line feed or the input's end was met, or over 65,600 bytes of it were taken. `ScriptRefused` says which
/// line, from 1, is the first that is in no production. With another status than `Ok` the output is a front part of one
/// that belongs to what was read.
pub fn play<F: Files, S: Source, K: Sink>(
    alloc: Global,
    config: Config,
    files: &mut F,
    input: &mut S,
    output: &mut K,
) -> Status
    ensures plays { Plays (F.content files.old) config
        (source_seen S.given S.left S.ended S.faults input.old)
        (source_seen S.given S.left S.ended S.faults input.new)
        (sink_seen K.taken K.faults output.old) (sink_seen K.taken K.faults output.new)
        (F.faults files.old) (F.faults files.new) result }
    ensures content { F.content files.new ≡ F.content files.old }
    ensures back { LendsNone (F.lent files.old) (F.lent files.new) }
{
    match play_all(alloc, config, files, input, output) {
        Ok(()) => Status::Ok,
        Err(halt) => halt.status(),
    }
}

// Opens the book and plays the lines of the whole input.
fn play_all<F: Files, S: Source, K: Sink>(
    alloc: Global,
    config: Config,
    files: &mut F,
    input: &mut S,
    output: &mut K,
) -> Result<(), Halt>
    ensures plays { Plays (F.content files.old) config
        (source_seen S.given S.left S.ended S.faults input.old)
        (source_seen S.given S.left S.ended S.faults input.new)
        (sink_seen K.taken K.faults output.old) (sink_seen K.taken K.faults output.new)
        (F.faults files.old) (F.faults files.new) (status_by result) }
    ensures content { F.content files.new ≡ F.content files.old }
    ensures back { LendsNone (F.lent files.old) (F.lent files.new) }
{
    let mut player = Player::new(alloc, config)?;
    let mut place = Place {
        number: 0,
        held: Vec::new(alloc),
    };
    let mut count = 0;
    let mut buffer = [0; BUFFER];
    'pieces: while count < MAX_INPUT {
        let room = buffer.len().min(MAX_INPUT - count);
        match input.read(&mut buffer[..room]) {
            Read::Got(got) => {
                count += got;
                if count == MAX_INPUT {
                    return Err(Halt::Long);
                }
                play_piece(&mut player, &mut place, files, &buffer[..got], output)?;
            }
            Read::End => return play_last(&mut player, &place, files, output),
            Read::Failed => return Err(Halt::Read),
        }
    }
    Err(Halt::Long)
}

// Plays the lines that end in a piece, and holds what stands behind them.
fn play_piece<F: Files, K: Sink>(
    player: &mut Player,
    place: &mut Place,
    files: &mut F,
    piece: &[u8],
    output: &mut K,
) -> Result<(), Halt>
    requires few { place.old.number + length piece.now + 1 < 2 ^ 64 }
    ensures plays { PlaysPiece (F.content files.old) piece.now place.old.held.items
        place.new.held.items place.old.number place.new.number player.old player.new
        (F.faults files.old) (F.faults files.new) (sink_seen K.taken K.faults output.old)
        (sink_seen K.taken K.faults output.new) result }
    ensures count { OnOk result (place.new.number ≤ place.old.number + length piece.now) }
    ensures content { F.content files.new ≡ F.content files.old }
    ensures back { LendsNone (F.lent files.old) (F.lent files.new) }
{
    let mut rest = piece;
    'lines: while let Some((part, behind)) = cut(rest, b'\n') {
        play_ended(player, place, files, part, output)?;
        rest = behind;
    }
    place.held.extend_from_slice(rest)?;
    if place.held.len() > MAX_SCRIPT_LINE {
        return Err(Halt::Script(place.number + 1));
    }
    Ok(())
}

// Plays the line that this part and a line feed behind it end.
fn play_ended<F: Files, K: Sink>(
    player: &mut Player,
    place: &mut Place,
    files: &mut F,
    part: &[u8],
    output: &mut K,
) -> Result<(), Halt>
    requires few { place.old.number + 1 < 2 ^ 64 }
    requires no_feed { HasNoFeed part.now }
    ensures plays { PlaysPiece (F.content files.old) (ended part.now) place.old.held.items
        place.new.held.items place.old.number place.new.number player.old player.new
        (F.faults files.old) (F.faults files.new) (sink_seen K.taken K.faults output.old)
        (sink_seen K.taken K.faults output.new) result }
    ensures count { OnOk result (place.new.number ≡ place.old.number + 1) }
    ensures content { F.content files.new ≡ F.content files.old }
    ensures back { LendsNone (F.lent files.old) (F.lent files.new) }
{
    histories_go_on();
    texts_follow();
    place.held.extend_from_slice(part)?;
    place.number += 1;
    play_line(player, files, place.number, &place.held, output)?;
    place.held.clear();
    Ok(())
}

// Plays the line that no line feed ended, if there is one.
fn play_last<F: Files, K: Sink>(
    player: &mut Player,
    place: &Place,
    files: &mut F,
    output: &mut K,
) -> Result<(), Halt>
    requires { place.now.number + 1 < 2 ^ 64 }
    ensures plays { PlaysLast (F.content files.old) place.now.held.items place.now.number player.old
        (F.faults files.old) (F.faults files.new) (sink_seen K.taken K.faults output.old)
        (sink_seen K.taken K.faults output.new) result }
    ensures content { F.content files.new ≡ F.content files.old }
    ensures back { LendsNone (F.lent files.old) (F.lent files.new) }
{
    histories_go_on();
    texts_follow();
    if place.held.is_empty() {
        return Ok(());
    }
    play_line(player, files, place.number + 1, &place.held, output)
}

// Plays the line of this number.
fn play_line<F: Files, K: Sink>(
    player: &mut Player,
    files: &mut F,
    number: u64,
    line: &[u8],
    output: &mut K,
) -> Result<(), Halt>
    ensures plays { PlaysLine (F.content files.old) number (script_line line.now) player.old
        player.new (F.faults files.old) (F.faults files.new) (sink_seen K.taken K.faults output.old)
        (sink_seen K.taken K.faults output.new) result }
    ensures content { F.content files.new ≡ F.content files.old }
    ensures back { LendsNone (F.lent files.old) (F.lent files.new) }
{
    script_lines_say_one();
    match read_script_line(line) {
        ScriptLine::PassedOver => Ok(()),
        ScriptLine::Says(event) => play_event(player, files, number, &event, output),
        ScriptLine::Bad => Err(Halt::Script(number)),
    }
}

// Plays the event of the line of this number.
fn play_event<F: Files, K: Sink>(
    player: &mut Player,
    files: &mut F,
    number: u64,
    event: &Event<'_>,
    output: &mut K,
) -> Result<(), Halt>
    requires { HasSlot (event_told event.now) }
    ensures plays { PlaysLine (F.content files.old) number (Says (event_told event.now)) player.old
        player.new (F.faults files.old) (F.faults files.new) (sink_seen K.taken K.faults output.old)
        (sink_seen K.taken K.faults output.new) result }
    ensures content { F.content files.new ≡ F.content files.old }
    ensures back { LendsNone (F.lent files.old) (F.lent files.new) }
{
    if !player.knows(event) {
        return Err(Halt::Script(number));
    }
    player.enter(files, event, output)
}
