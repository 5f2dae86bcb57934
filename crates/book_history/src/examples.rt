//! Worked examples of histories, and answers that are refused.
ghost use Rattle.text_forms.specs.Lines.{Line};
ghost use Rattle.command_grammar.specs.declared.command.Command.{Command};
ghost use Rattle.book_history.specs.BatchExamples.{FrozenBatches, LostSessions, SentAgain};
ghost use Rattle.book_history.specs.EndExamples.{Ends};
ghost use Rattle.book_history.specs.HelperExamples.{FewStarts, HelpersGone, SwitchedReplies};
ghost use Rattle.book_history.specs.LegalExamples.{RefusalsAreOfLegal, TwoBatches};
ghost use Rattle.book_history.specs.Refusals.{FullQueueWaits, Refusals};
ghost use Rattle.book_history.specs.ReloadExamples.{Reloads};

use crate::laws::{nothing_pending, whole_batches};
use update_grammar::{reading_is_spelling, written_is_spelled};

/// Batches: what comes within one shows in the next alone; a session that is lost and comes back begins with nothing
/// sent; and a family that is asked for again is sent again. `line` is whatever lines say the commands.
pub fn batches_work()
    ensures frozen { (line : Command → Line) → FrozenBatches line }
    ensures lost { (line : Command → Line) → LostSessions line }
    ensures again { (line : Command → Line) → SentAgain line }
{}

/// Helpers: how often one is started, what becomes of the lines and replies of one that is gone, and which lines have
/// a reply.
pub fn helpers_work()
    ensures starts { FewStarts }
    ensures gone { (line : Command → Line) → HelpersGone line }
    ensures replies { (line : Command → Line) → SwitchedReplies line }
{}

/// Reloads: a static route that the new file lacks is withdrawn, a helper's route stays, and the session of a neighbour
/// that is gone ends. A file that isn't read changes nothing.
pub fn reloads_work()
    ensures { (line : Command → Line) → Reloads line }
{}

/// Ends: what is answered once a session or the daemon is to end, and where settings changed before a session came up.
pub fn ends_work()
    ensures { (line : Command → Line) → Ends line }
{}

/// Histories that are legal: one with entries of a helper that starts and of its lines, and of a neighbour whose
/// session comes up and is sent two batches, messages that aren't the last, a marker and a message that are, and then
/// nothing; and those behind which [`wrong_answers_are_refused`].
pub fn examples_are_legal()
    ensures two_batches { TwoBatches }
    ensures before_refusals { RefusalsAreOfLegal }
{
    reading_is_spelling();
    written_is_spelled();
}

/// Answers that are refused: a line that is done without effect, a later value within an open batch, a withdrawal that
/// is forgotten, a sent table that outlives its session, a batch of the whole table, a reload that drops a helper's
/// route or keeps a static one, one prefix a message, starts that are forgotten, and a reply that gives way to another.
pub fn wrong_answers_are_refused()
    ensures answers { (line : Command → Line) → Refusals line }
    ensures queue { FullQueueWaits }
{
    whole_batches();
    nothing_pending();
}
