//! Events of the daemon as a whole.
ghost use Rattle.std.specs.Prelude.{◌≡◌};
ghost use Rattle.outside.specs.Lent.{LendsNone};
ghost use Rattle.book_history.specs.Entries.Entry.{ReloadRefused};
ghost use Rattle.script_grammar.specs.Events as events;
ghost use Rattle.script_play.specs.Entering.{PutsAsked, PutsReload};
ghost use Rattle.script_play.specs.Reloading.{IsLoaded, PutsEntry};

use crate::config_file::configured;
use crate::halt::Halt;
use crate::player::Player;
use crate::status::Status;
use answer_texts::{put_control, put_not_read, put_reload};
use answers::NoMemory;
use book_core::NotRead;
use config_model::{Config, MAX_HELPERS, MAX_PEERS, Slots};
use outside::Files;

// How many processes and neighbours a configuration is read for.
const TEXT_SLOTS: Slots = Slots {
    helpers: MAX_HELPERS,
    peers: MAX_PEERS,
};

impl Player {
    // What the daemon is to do.
    pub(crate) fn control(&mut self) -> Result<(), NoMemory>
        ensures { PutsAsked self.old self.new events.Control result }
    {
        let given = self.book.control();
        self.text.clear();
        put_control(&mut self.text, given)
    }

    // The file at a path is the new configuration, or is refused.
    pub(crate) fn reload<F: Files>(&mut self, files: &mut F, path: &str) -> Result<(), Halt>
        ensures reloads { PutsReload (F.content files.old) path.now self.old self.new
            (F.faults files.old) (F.faults files.new) result }
        ensures content { F.content files.new ≡ F.content files.old }
        ensures back { LendsNone (F.lent files.old) (F.lent files.new) }
    {
        match configured(self.alloc, files, path, TEXT_SLOTS) {
            Ok(config) => Ok(self.load(config)?),
            Err(Status::ConfigRefused(fault)) => Ok(self.refuse(NotRead::Refused(fault))?),
            Err(Status::ConfigRead) => Err(Halt::File),
            Err(Status::NoMemory) => Ok(self.refuse(NotRead::NoMemory)?),
            Err(_) => unreachable!(),
        }
    }

    // The file gave this configuration.
    fn load(&mut self, config: Config) -> Result<(), NoMemory>
        ensures { PutsEntry (IsLoaded config) self.old self.new result }
    {
        let given = self.book.reload(config);
        self.text.clear();
        put_reload(&mut self.text, given)
    }

    // The file gave no configuration, for this reason.
    fn refuse(&mut self, why: NotRead) -> Result<(), NoMemory>
        ensures { PutsEntry (λ entry. entry ≡ ReloadRefused why) self.old self.new result }
    {
        self.book.reload_refused(why);
        self.text.clear();
        put_not_read(&mut self.text, why)
    }
}
