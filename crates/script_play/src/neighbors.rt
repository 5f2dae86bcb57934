//! Events of a neighbour slot.
ghost use Rattle.std.specs.Prelude.{◌≡◌, ◌<◌, ◌∷◌, OnOk};
ghost use Rattle.config_model.specs.Limits.{max_peers};
ghost use Rattle.config_model.specs.Sections.{Sections};
ghost use Rattle.book_history.specs.Entries.{History};
ghost use Rattle.book_history.specs.Entries.Entry.{MessageCut};
ghost use Rattle.answer_texts.specs.Shown.{shown};
ghost use Rattle.script_grammar.specs.Events as events;
ghost use Rattle.script_play.specs.Entering.{PutsAsked};
ghost use Rattle.script_play.specs.Player.{PlayerStands, known_by};

use crate::player::Player;
use answer_texts::{put_cut, put_ok, put_peer, put_up};
use answers::NoMemory;
use book_core::{Cut, Peer};
use config_model::MAX_PEERS;
use route_values::{Caps, Family, Settings};

impl Player {
    // Which neighbour is in a slot. Its settings are kept for a session that comes up.
    pub(crate) fn peer(&mut self, n: usize) -> Result<(), NoMemory>
        requires { n < max_peers }
        ensures { PutsAsked self.old self.new (events.Peer n) result }
    {
        let given = self.book.peer(n);
        keep(&mut self.known, n, &given);
        self.text.clear();
        put_peer(&mut self.text, &given)
    }

    // A session comes up, with the settings that the slot told last. Where it told none there is nothing to enter.
    pub(crate) fn up(&mut self, n: usize, caps: Caps) -> Result<(), NoMemory>
        requires { n < max_peers }
        ensures { PutsAsked self.old self.new (events.Up n caps) result }
    {
        let Some(settings) = self.known[n] else {
            return Err(NoMemory);
        };
        let given = self.book.up(n, &settings, caps);
        self.text.clear();
        put_up(&mut self.text, given)
    }

    // A session goes down.
    pub(crate) fn down(&mut self, n: usize) -> Result<(), NoMemory>
        requires { n < max_peers }
        ensures { PutsAsked self.old self.new (events.Down n) result }
    {
        self.book.down(n);
        self.text.clear();
        put_ok(&mut self.text)
    }

    // A neighbour asks for a family again.
    pub(crate) fn refresh(&mut self, n: usize, family: Family) -> Result<(), NoMemory>
        requires { n < max_peers }
        ensures { PutsAsked self.old self.new (events.Refresh n family) result }
    {
        self.book.refresh(n, family);
        self.text.clear();
        put_ok(&mut self.text)
    }

    // The next message of a slot is made.
    pub(crate) fn cut(&mut self, n: usize) -> Result<(), NoMemory>
        requires { n < max_peers }
        ensures { PutsAsked self.old self.new (events.Cut n) result }
    {
        let given = self.cut_next(n);
        self.put_cut(n, given)
    }

    // Makes the next message of a slot in the buffer.
    pub(crate) fn cut_next(&mut self, n: usize) -> Cut
        requires { n < max_peers }
        ensures { (cfg : Sections) (H : History) → PlayerStands cfg H self.old
            → PlayerStands cfg (MessageCut n self.new.message.bytes result ∷ H) self.new }
    {
        self.message.cut(&mut self.book, n)
    }

    // Puts what is printed of a cut, whose message stands in the buffer.
    pub(crate) fn put_cut(&mut self, n: usize, given: Cut) -> Result<(), NoMemory>
        ensures text { OnOk result
            (self.new.text.items ≡ shown (MessageCut n self.old.message.bytes given)) }
        ensures stands { (cfg : Sections) (H : History) → PlayerStands cfg H self.old
            → PlayerStands cfg H self.new }
    {
        self.text.clear();
        put_cut(self.alloc, &mut self.text, n, self.message.bytes(), given)
    }
}

// Keeps the settings that a slot told, if it told any.
fn keep(known: &mut [Option<Settings>; MAX_PEERS], n: usize, given: &Peer)
    requires { n < max_peers }
    ensures { known.new ≡ known_by n given.now known.old }
{
    if let Peer::Is(settings) = given {
        known[n] = Some(*settings);
    }
}
