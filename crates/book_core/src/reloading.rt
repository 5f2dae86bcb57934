//! Reloads of the configuration.
ghost use Rattle.std.specs.Prelude.{◌≡◌, ◌∷◌};
ghost use Rattle.config_model.specs.Sections.{Sections};
ghost use Rattle.book_history.specs.Entries.{History};
ghost use Rattle.book_history.specs.Entries.Entry.{Reloaded};
ghost use Rattle.book_history.specs.Legal.{Allows};
ghost use Rattle.book_core.specs.Settling.{is_done};
ghost use Rattle.book_core.specs.Stands.{Stands};

use crate::book::Book;
use crate::placing::find_places;
use crate::processes::reload_helpers;
use crate::routes::known_sections;
use crate::settling::reload_peers;
use crate::trimming::trim_all;
use book_history::Reload;
use config_model::Config;

impl Book {
    /// Gives the book a new configuration. Neighbours stay in their slots by their addresses, and processes by their
    /// names; those that the file lacks leave theirs, and new ones take the lowest vacant slots, in the file's order.
    /// A neighbour with other settings loses its session. Routes of helpers stay. Where memory is wanting, or there
    /// would be more than 4,194,304 route nodes, nothing changes but that no reload is due.
    pub fn reload(&mut self, config: Config) -> Reload
        ensures { (cfg : Sections) (H : History) → Stands cfg H self.old →
            Allows cfg H (Reloaded config result)
            × Stands cfg (Reloaded config result ∷ H) self.new }
    {
        let sections = config.neighbors();
        // For the proof: the static routes are such as can be announced.
        known_sections(sections);
        let places = find_places(self.peers.as_slice(), sections);
        let given = reload_peers(self.alloc, self.hasher, &mut self.peers, sections, &places);
        trim_all(&mut self.peers);
        if is_done(given) {
            reload_helpers(&mut self.helpers, config.processes());
        }
        self.reload_due = false;
        given
    }
}

// Whether a new configuration stands.
fn is_done(given: Reload) -> bool
    ensures { result ≡ is_done given }
{
    match given {
        Reload::Full(_) | Reload::NoMemory => false,
        Reload::Ok => true,
    }
}
