//! Events of the daemon as a whole.
ghost use Rattle.std.specs.Prelude.{◌≡◌, ◌<◌, ◌+◌, ◌∷◌, List, length};
ghost use Rattle.config_model.specs.Sections.{Sections};
ghost use Rattle.book_history.specs.Entries.{History};
ghost use Rattle.book_history.specs.Entries.Entry.{ControlAsked, ReloadRefused, Stopped};
ghost use Rattle.book_history.specs.Legal.{Allows};
ghost use Rattle.book_core.specs.declared.peering.Peering.{Peering as Place};
ghost use Rattle.book_core.specs.Ending.{directed_by, ended_by};
ghost use Rattle.book_core.specs.Moves.{MovesAll, MovesBelow};
ghost use Rattle.book_core.specs.Stands.{Stands};

use crate::book::Book;
use crate::peering::Peering;
use book_history::{Control, NotRead};
use peer_book::Code;
use peer_history::nodes_stay;

// A Cease (RFC 4271, section 6.7).
pub(crate) const CEASE: u8 = 6;

// The subcode of an administrative shutdown (RFC 4486, section 3).
pub(crate) const SHUT_DOWN: u8 = 2;

impl Book {
    /// What the daemon is to do. It takes no memory.
    pub fn control(&mut self) -> Control
        ensures { (cfg : Sections) (H : History) → Stands cfg H self.old →
            Allows cfg H (ControlAsked result) × Stands cfg (ControlAsked result ∷ H) self.new }
    {
        directed(self.stopping, self.reload_due)
    }

    /// There is no new configuration: no reload is due, and nothing else changes. It takes no memory.
    pub fn reload_refused(&mut self, why: NotRead)
        ensures { (cfg : Sections) (H : History) → Stands cfg H self.old →
            Stands cfg (ReloadRefused why ∷ H) self.new }
    {
        let _why = why;
        self.reload_due = false;
    }

    /// The daemon is to end, as by an accepted shutdown. It takes no memory.
    pub fn stop(&mut self)
        ensures { (cfg : Sections) (H : History) → Stands cfg H self.old →
            Stands cfg (Stopped ∷ H) self.new }
    {
        // For the proof: sessions that end add no node.
        nodes_stay();
        end_all(&mut self.peers, Code::new(CEASE, SHUT_DOWN));
        self.stopping = true;
    }
}

// What the daemon is to do, by whether it ends and whether a reload is due.
fn directed(stopping: bool, reload_due: bool) -> Control
    ensures { result ≡ directed_by stopping reload_due }
{
    if stopping {
        return Control::Stop;
    }
    if reload_due {
        return Control::ReloadDue;
    }
    Control::Nothing
}

/// Ends the sessions of all slots with a code. It takes no memory.
pub fn end_all(peers: &mut Vec<Peering>, code: Code)
    ensures { MovesAll (ended_by code) peers.old.items peers.new.items }
{
    let count = peers.len();
    'peers: for n in 0..count {
        end_at(peers, n, code);
    }
}

// Ends the session of one slot, behind those of the slots below it.
fn end_at(peers: &mut Vec<Peering>, n: usize, code: Code)
    requires { n < length peers.old.items }
    ensures { (start : List Place) → MovesBelow n (ended_by code) start peers.old.items
        → MovesBelow (n + 1) (ended_by code) start peers.new.items }
{
    let peering = &mut peers[n];
    peering.slot.end(code);
}
