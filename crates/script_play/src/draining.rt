//! Messages until none comes.
ghost use Rattle.std.specs.Prelude.{◌≡◌, ◌<◌, ℕ, List, Option};
ghost use Rattle.outside.specs.Seen.{sink_seen};
ghost use Rattle.config_model.specs.Limits.{max_peers};
ghost use Rattle.config_model.specs.Sections.{Sections};
ghost use Rattle.book_history.specs.Entries.{History};
ghost use Rattle.script_grammar.specs.Events.{Drain};
ghost use Rattle.text_history.specs.Plays.{is_message};
ghost use Rattle.script_play.specs.Draining.{WritesCut};
ghost use Rattle.script_play.specs.Entering.{Enters};
ghost use Rattle.script_play.specs.Player.{PlayerStands};

use crate::halt::Halt;
use crate::player::Player;
use crate::writing::write;
use book_core::Cut;
use outside::Sink;

impl Player {
    // Makes and writes the messages of a slot, up to and with the first answer that is none. They end, as each batch
    // does; memory is told to be wanting after more of them than 64 bits count.
    pub(crate) fn drain<K: Sink>(&mut self, n: usize, output: &mut K) -> Result<(), Halt>
        requires { n < max_peers }
        ensures { (content : Option (List ℕ → List ℕ)) (files : ℕ) (cfg : Sections) (H : History)
            → PlayerStands cfg H self.old → Enters content cfg H (Drain n) self.new files files
            (sink_seen K.taken K.faults output.old) (sink_seen K.taken K.faults output.new) result }
    {
        'cuts: for _ in 0..u64::MAX {
            let given = self.write_cut(n, output)?;
            if !is_message(given) {
                return Ok(());
            }
        }
        Err(Halt::Memory)
    }

    // Makes the next message of a slot, and writes what is printed of it.
    fn write_cut<K: Sink>(&mut self, n: usize, output: &mut K) -> Result<Cut, Halt>
        requires { n < max_peers }
        ensures { (files : ℕ) (cfg : Sections) (H : History) → PlayerStands cfg H self.old
            → WritesCut cfg H n self.new files (sink_seen K.taken K.faults output.old)
            (sink_seen K.taken K.faults output.new) result }
    {
        let given = self.cut_next(n);
        self.put_cut(n, given)?;
        write(output, &self.text)?;
        Ok(given)
    }
}

// Whether a cut made a message.
fn is_message(given: Cut) -> bool
    ensures { result ≡ is_message given }
{
    matches!(given, Cut::Message { .. })
}
