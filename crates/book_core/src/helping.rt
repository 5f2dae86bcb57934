//! Events of one helper.
ghost use Rattle.std.specs.Prelude.{◌<◌, ◌∷◌};
ghost use Rattle.config_model.specs.Limits.{max_helpers};
ghost use Rattle.config_model.specs.Sections.{Sections};
ghost use Rattle.book_history.specs.Entries.{History};
ghost use Rattle.book_history.specs.Entries.Entry.{RepliesTaken, HelperDeaf, HelperGone};
ghost use Rattle.book_history.specs.Entries.Entry.{SpawnAsked};
ghost use Rattle.book_history.specs.Legal.{Allows};
ghost use Rattle.book_core.specs.Stands.{Stands};

use crate::book::Book;
use book_history::{Spawn, Take};

impl Book {
    /// Takes the first replies that wait for an incarnation of a helper slot, at most 64. `Ended` comes where `inc`
    /// isn't that of the slot's last start, or where none waits and none will: the incarnation doesn't run, or the
    /// daemon ends. It takes no memory.
    pub fn take(&mut self, h: usize, inc: u64) -> Take
        requires { h < max_helpers }
        ensures { (cfg : Sections) (H : History) → Stands cfg H self.old →
            Allows cfg H (RepliesTaken h inc result)
            × Stands cfg (RepliesTaken h inc result ∷ H) self.new }
    {
        let stopping = self.stopping;
        let helper = &mut self.helpers[h];
        helper.take(inc, stopping)
    }

    /// Says that an incarnation reads no more replies: those that wait are dropped. An incarnation that isn't the
    /// slot's last one changes nothing. It takes no memory.
    pub fn deaf(&mut self, h: usize, inc: u64)
        requires { h < max_helpers }
        ensures { (cfg : Sections) (H : History) → Stands cfg H self.old →
            Stands cfg (HelperDeaf h inc ∷ H) self.new }
    {
        let helper = &mut self.helpers[h];
        helper.deaf(inc);
    }

    /// Says that an incarnation is no more. Its replies stay to be taken, and its routes stay. One that isn't there
    /// changes nothing. It takes no memory.
    pub fn gone(&mut self, h: usize, inc: u64)
        requires { h < max_helpers }
        ensures { (cfg : Sections) (H : History) → Stands cfg H self.old →
            Stands cfg (HelperGone h inc ∷ H) self.new }
    {
        let helper = &mut self.helpers[h];
        helper.gone(inc);
    }

    /// Whether the process of a helper slot is to be started at a moment in milliseconds, and by which words. It takes
    /// no memory.
    pub fn spawn(&mut self, h: usize, now: u64) -> Spawn
        requires { h < max_helpers }
        ensures { (cfg : Sections) (H : History) → Stands cfg H self.old →
            Allows cfg H (SpawnAsked h now result)
            × Stands cfg (SpawnAsked h now result ∷ H) self.new }
    {
        let stopping = self.stopping;
        let helper = &mut self.helpers[h];
        helper.spawn(now, stopping)
    }
}
