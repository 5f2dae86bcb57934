//! A helper's lines, and their replies.
ghost use Rattle.std.specs.Prelude.{◌≡◌, None, OnOk};
ghost use Rattle.outside.specs.Seen.{sink_seen, source_seen};
ghost use Rattle.text_forms.specs.LineTold.{line_told};
ghost use Rattle.line_cutter.specs.Cutting.{fresh, standing};
ghost use Rattle.config_model.specs.Sections.{Sections};
ghost use Rattle.book_history.specs.Entries.{History};
ghost use Rattle.book_history.specs.Entries.Entry.{RepliesTaken};
ghost use Rattle.answer_texts.specs.Shown.{encoded};
ghost use Rattle.text_history.specs.Encodes.{AreTaken, is_full};
ghost use Rattle.script_play.specs.Player.{PlayerStands};
ghost use Rattle.script_play.specs.Encoding.{AddsAll, AnswersLine, AnswersPiece, AnswersSource};
ghost use Rattle.script_play.specs.Encoding.{EntersLine, TakesOnce, WritesText};

use crate::halt::Halt;
use crate::player::Player;
use crate::writing::write;
use ack_queue::MAX_TAKEN;
use answer_texts::put_replies;
use book_core::{Take, Verdict};
use command_grammar::ReadLine;
use line_cutter::LineCutter;
use outside::{Read, Sink, Source};
use text_forms::Line;

// How many bytes of input are too many.
const MAX_INPUT: usize = 1 << 40;

// How many bytes one call of a source is asked for at most: what a pipe holds on Linux.
const BUFFER: usize = 65_536;

/// Answers the lines of the input, each once its line feed was read, and writes their replies before more is read.
pub fn answer_all<S: Source, K: Sink>(
    player: &mut Player,
    cutter: &mut LineCutter,
    input: &mut S,
    output: &mut K,
) -> Result<(), Halt>
    requires { cutter.old ≡ fresh }
    ensures { (cfg : Sections) (H : History) → PlayerStands cfg H player.old
        → AnswersSource cfg H player.new
        (source_seen S.given S.left S.ended S.faults input.old)
        (source_seen S.given S.left S.ended S.faults input.new)
        (sink_seen K.taken K.faults output.old) (sink_seen K.taken K.faults output.new) result }
{
    let mut count = 0;
    let mut buffer = [0; BUFFER];
    'pieces: while count < MAX_INPUT {
        let room = buffer.len().min(MAX_INPUT - count);
        match input.read(&mut buffer[..room]) {
            Read::Got(got) => {
                count += got;
                if count == MAX_INPUT {
                    return Err(Halt::Long);
                }
                answer_piece(player, cutter, &buffer[..got], output)?;
            }
            Read::End => return Ok(()),
            Read::Failed => return Err(Halt::Read),
        }
    }
    Err(Halt::Long)
}

// Answers the lines that end in a piece.
fn answer_piece<K: Sink>(
    player: &mut Player,
    cutter: &mut LineCutter,
    piece: &[u8],
    output: &mut K,
) -> Result<(), Halt>
    requires none { standing cutter.old ≡ None }
    ensures answers { AnswersPiece piece.now cutter.old cutter.new player.old player.new
        (sink_seen K.taken K.faults output.old) (sink_seen K.taken K.faults output.new) result }
    ensures none { OnOk result (standing cutter.new ≡ None) }
{
    let mut rest = piece;
    'lines: loop {
        let count = cutter.feed(rest);
        (_, rest) = rest.split_at(count);
        let Some(line) = cutter.peek() else {
            return Ok(());
        };
        answer_line(player, line, output)?;
        cutter.advance();
    }
}

// Enters a line, and writes the replies that it leaves.
fn answer_line<K: Sink>(player: &mut Player, line: Line<'_>, output: &mut K) -> Result<(), Halt>
    ensures { AnswersLine (line_told line.entry) player.old player.new
        (sink_seen K.taken K.faults output.old) (sink_seen K.taken K.faults output.new) result }
{
    match enter_line(player, line) {
        Verdict::Ended => Ok(()),
        Verdict::Done | Verdict::Busy | Verdict::Error(_) => take_all(player, output),
    }
}

// Enters a line.
fn enter_line(player: &mut Player, line: Line<'_>) -> Verdict
    ensures { (cfg : Sections) (H : History) → PlayerStands cfg H player.old
        → EntersLine cfg H (line_told line.entry) result player.new }
{
    let read = ReadLine::new(player.alloc, line);
    player.book.line(0, 1, &read)
}

// Takes and writes replies until fewer come than are taken at once; memory is told to be wanting after more takes than
// 64 bits count.
fn take_all<K: Sink>(player: &mut Player, output: &mut K) -> Result<(), Halt>
    ensures { (cfg : Sections) (H : History) → PlayerStands cfg H player.old
        → AddsAll AreTaken cfg H player.new
        (sink_seen K.taken K.faults output.old) (sink_seen K.taken K.faults output.new) result }
{
    'takes: for _ in 0..u64::MAX {
        if !take_once(player, output)? {
            return Ok(());
        }
    }
    Err(Halt::Memory)
}

// Takes replies and writes them. Answers whether as many came as are taken at once.
fn take_once<K: Sink>(player: &mut Player, output: &mut K) -> Result<bool, Halt>
    ensures { (cfg : Sections) (H : History) → PlayerStands cfg H player.old
        → TakesOnce cfg H player.new
        (sink_seen K.taken K.faults output.old) (sink_seen K.taken K.faults output.new) result }
{
    let given = player.book.take(0, 1);
    let full = is_full(&given);
    write_replies(player, given, output)?;
    Ok(full)
}

// Whether as many replies came as are taken at once.
fn is_full(given: &Take) -> bool
    ensures { result ≡ is_full given.now }
{
    match given {
        Take::Replies(replies) => replies.len() == MAX_TAKEN,
        Take::Ended | Take::Nothing => false,
    }
}

// Writes replies as the helper reads them.
fn write_replies<K: Sink>(player: &mut Player, given: Take, output: &mut K) -> Result<(), Halt>
    ensures writes { WritesText (encoded (RepliesTaken 0 1 given))
        (sink_seen K.taken K.faults output.old) (sink_seen K.taken K.faults output.new) result }
    ensures stands { (cfg : Sections) (H : History) → PlayerStands cfg H player.old
        → PlayerStands cfg H player.new }
{
    player.text.clear();
    put_replies(&mut player.text, given)?;
    write(output, &player.text)
}
