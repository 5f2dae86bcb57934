//! Events of one neighbour.
ghost use Rattle.std.specs.Prelude.{◌≡◌, ◌<◌, ◌≤◌, ℕ, List, [], ◌∷◌};
ghost use Rattle.config_model.specs.Limits.{max_peers};
ghost use Rattle.config_model.specs.Sections.{Sections};
ghost use Rattle.peer_book.specs.Cutting.{answered};
ghost use Rattle.book_history.specs.Entries.{History};
ghost use Rattle.book_history.specs.Entries.Entry.{PeerAsked, CameUp, WentDown, RefreshAsked};
ghost use Rattle.book_history.specs.Entries.Entry.{MessageCut};
ghost use Rattle.book_history.specs.Legal.{Allows};
ghost use Rattle.book_history.specs.PeerSteps.{answer_of};
ghost use Rattle.book_core.specs.Ready.{are_settings, peer_told, TakesCuts};
ghost use Rattle.book_core.specs.Stands.{Stands};

use crate::book::Book;
use attr_codec::Message;
use book_history::{Cut, Peer, Up, nodes_stay};
use peer_book::PeerSlot;
use route_values::{Caps, Family, Settings};

impl Book {
    /// Which neighbour is in a slot, with whose settings a session is to be opened. It takes no memory.
    pub fn peer(&self, n: usize) -> Peer
        requires { n < max_peers }
        ensures { (cfg : Sections) (H : History) → Stands cfg H self.now →
            Allows cfg H (PeerAsked n result) × Stands cfg (PeerAsked n result ∷ H) self.now }
    {
        let stopping = self.stopping;
        if stopping {
            return Peer::Stopping;
        }
        let place = &self.peers[n];
        peer_told(place.slot.settings())
    }

    /// A session came up with a neighbour slot, opened with these settings, which agreed on these capabilities. Nothing
    /// is sent on it yet, and one that stood before is ended. Where the slot has other settings by now, or none, no
    /// session stands by this call. It takes no memory.
    pub fn up(&mut self, n: usize, settings: &Settings, caps: Caps) -> Up
        requires { n < max_peers }
        ensures { (cfg : Sections) (H : History) → Stands cfg H self.old →
            Allows cfg H (CameUp n settings.now caps result)
            × Stands cfg (CameUp n settings.now caps result ∷ H) self.new }
    {
        let stopping = self.stopping;
        if stopping {
            return Up::Stopping;
        }
        let place = &self.peers[n];
        if !has_settings(&place.slot, settings) {
            return Up::Stale;
        }
        // For the proof: a session that comes up adds no node.
        nodes_stay();
        let peering = &mut self.peers[n];
        peering.slot.up(caps);
        Up::Ok
    }

    /// The session of a slot went down. Where none stands nothing changes. It takes no memory.
    pub fn down(&mut self, n: usize)
        requires { n < max_peers }
        ensures { (cfg : Sections) (H : History) → Stands cfg H self.old →
            Stands cfg (WentDown n ∷ H) self.new }
    {
        // For the proof: a session that goes down adds no node.
        nodes_stay();
        let peering = &mut self.peers[n];
        peering.slot.down();
    }

    /// A neighbour asks for a family again (RFC 2918). Without a live session nothing changes. It takes no memory.
    pub fn refresh(&mut self, n: usize, family: Family)
        requires { n < max_peers }
        ensures { (cfg : Sections) (H : History) → Stands cfg H self.old →
            Stands cfg (RefreshAsked n family ∷ H) self.new }
    {
        // For the proof: a family that is sent again adds no node.
        nodes_stay();
        let peering = &mut self.peers[n];
        peering.slot.refresh(family);
    }

    /// Makes the next message of a slot's session in an empty buffer. The buffer has room for each message of the
    /// session. It takes no memory.
    pub fn cut(&mut self, n: usize, out: &mut Message) -> Cut
        requires slot { n < max_peers }
        requires empty { out.old.bytes ≡ [] }
        requires room { TakesCuts self.old n out.old.room }
        ensures stands { (cfg : Sections) (H : History) → Stands cfg H self.old →
            Allows cfg H (MessageCut n out.new.bytes result)
            × Stands cfg (MessageCut n out.new.bytes result ∷ H) self.new }
        ensures room { out.new.room ≡ out.old.room }
    {
        // For the proof: a message adds no node.
        nodes_stay();
        let peering = &mut self.peers[n];
        told(peering.slot.cut(out))
    }
}

// The neighbour that is told, by the settings of its slot.
fn peer_told(settings: Option<Settings>) -> Peer
    ensures { result ≡ peer_told settings }
{
    match settings {
        None => Peer::Absent,
        Some(settings) => Peer::Is(settings),
    }
}

// Whether a slot has a neighbour with these settings.
fn has_settings(slot: &PeerSlot, settings: &Settings) -> bool
    ensures { result ≡ are_settings slot.now.settings settings.now }
{
    match slot.settings() {
        None => false,
        Some(own) => own == *settings,
    }
}

// The answer of a slot as that of the daemon.
fn told(cut: peer_book::Cut) -> Cut
    ensures { (bytes : List ℕ) → answer_of bytes result ≡ answered bytes cut }
{
    match cut {
        peer_book::Cut::NoSession => Cut::Down,
        peer_book::Cut::Reset(code) => Cut::Reset {
            code: code.code(),
            sub: code.sub(),
        },
        peer_book::Cut::Nothing => Cut::Nothing,
        peer_book::Cut::Message { last } => Cut::Message { last },
    }
}
