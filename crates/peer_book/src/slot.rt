//! A neighbour slot.
ghost use Rattle.std.specs.Prelude.{◌≡◌, ◌≤◌, ℕ, List, [], ◌∷◌, Some, None, IfOk, OnErr, is_some};
ghost use Rattle.std.specs.Prelude.{if◌then◌else◌};
ghost use Rattle.route_values.specs.Settings.{side_of};
ghost use Rattle.route_values.specs.declared.attrs.Attrs.{Attrs as Written};
ghost use Rattle.route_values.specs.Caps.{Caps as Carried};
ghost use Rattle.update_grammar.specs.Packed.{room};
ghost use Rattle.adj_rib_out.specs.State.{value_at};
ghost use Rattle.adj_rib_out.specs.Calls.{empty, Readies, ReadiesSome, Trims};
ghost use Rattle.peer_history.specs.Cuts.{MayAnswer};
ghost use Rattle.peer_history.specs.Sessions.{live};
ghost use Rattle.peer_history.specs.Steps.{Step};
ghost use Rattle.peer_history.specs.Steps.Step.{Announced, Withdrawn, Cleared, Placed, Vacated};
ghost use Rattle.peer_history.specs.Steps.Step.{Up, Down, Ended, Refreshed};
ghost use Rattle.peer_history.specs.Steps.Step.{Cut as CutStep};
ghost use Rattle.peer_book.specs.Cutting.{answered};
ghost use Rattle.peer_book.specs.Slot.{live_caps};
ghost use Rattle.peer_book.specs.Stands.{Stands};
ghost use Rattle.peer_book.specs.Statics.{statics_of, AreRoutes, StandsWithout, IsExchange};
ghost use Rattle.peer_book.specs.Tables.{CanAnnounce};

use crate::clearing::unset_all;
use crate::code::Code;
use crate::cut::Cut;
use crate::cutting::cut_next;
use crate::statics::put_statics;
use crate::table::{set_each, unset_each};
use adj_rib_out::{Owner, Rib};
use attr_codec::Message;
use config_model::StaticRoute;
use route_values::{Attrs, Caps, Family, Key, NoMemory, Settings};
use std::marker::Model;
use update_grammar::{reading_is_spelling, written_is_spelled};

/// A neighbour slot: the settings of the neighbour in it, its table, the session that stands, and the code that ended
/// that session. A contract says of a call: where the slot stood for a history of steps, it then stands for that
/// history with one more step.
#[derive(Drop)]
pub struct PeerSlot {
    pub(crate) settings: Option<Settings>,
    pub(crate) table: Rib,
    pub(crate) session: Option<Caps>,
    pub(crate) reset: Option<Code>,
}

impl Model for PeerSlot {
    ghost use Rattle.peer_book.specs.Slot.{Slot, IsKept};

    ghost Value = { Slot };

    ghost use Rattle.peer_book.specs.Seen.{seen};

    ghost view = { seen };

    ghost invariant = { λ slot. IsKept (seen slot) };
}

impl PeerSlot {
    /// A slot that no neighbour is in, with an empty table.
    pub fn vacant(table: Rib) -> PeerSlot
        requires { table ≡ empty table.side }
        ensures stands { Stands [] result }
        ensures vacated { (steps : List Step) → StandsWithout (Vacated ∷ steps) result }
        ensures closed { live_caps result ≡ None }
    {
        PeerSlot {
            settings: None,
            table,
            session: None,
            reset: None,
        }
    }

    /// A slot in which a neighbour is placed with its static routes, in an empty table that sends by its settings. They
    /// are within the limits, and their next hops are of their keys' families.
    pub fn placed(
        mut table: Rib,
        settings: Settings,
        statics: &[StaticRoute],
    ) -> Result<PeerSlot, NoMemory>
        requires table { table ≡ empty (side_of settings) }
        requires routes { AreRoutes (side_of settings) statics.now }
        ensures stands { IfOk result
            (λ slot. Stands (Placed settings (statics_of statics.now) ∷ []) slot) }
        ensures placed { IfOk result
            (λ slot. (steps : List Step)
            → StandsWithout (Placed settings (statics_of statics.now) ∷ steps) slot) }
        ensures closed { IfOk result (λ slot. live_caps slot ≡ None) }
    {
        put_statics(&mut table, statics)?;
        Ok(PeerSlot {
            settings: Some(settings),
            table,
            session: None,
            reset: None,
        })
    }

    /// Gives a slot the neighbour and the table of another, where no session is live: one that a code ended stays. No
    /// session is live in the other.
    pub fn exchange(&mut self, other: PeerSlot)
        requires { live_caps other ≡ None }
        ensures { (steps : List Step) (step : Step) → IsExchange step → live steps ≡ None
            → Stands steps self.old → StandsWithout (step ∷ steps) other
            → Stands (step ∷ steps) self.new }
    {
        let PeerSlot {
            settings,
            table,
            session: _,
            reset: _,
        } = other;
        self.settings = settings;
        self.table = table;
        self.session = ended(self.session, self.reset);
    }

    /// Stands keys and a value ready for `announce`, and answers the value's number. Nothing else changes, also where
    /// memory is wanting.
    pub fn prepare(&mut self, keys: &[Key], written: &Attrs) -> Result<usize, NoMemory>
        ensures ok { IfOk result
            (λ number. Readies self.old.table self.new.table keys.now written.now number) }
        ensures err { OnErr result (ReadiesSome self.old.table self.new.table keys.now) }
        ensures settings { self.new.settings ≡ self.old.settings }
        ensures stands { (steps : List Step) → Stands steps self.old → Stands steps self.new }
    {
        self.table.ready(keys, written)
    }

    /// Takes out what stands ready and isn't needed.
    pub fn trim(&mut self)
        ensures trimmed { Trims self.old.table self.new.table }
        ensures stands { (steps : List Step) → Stands steps self.old → Stands steps self.new }
    {
        self.table.trim();
    }

    /// A helper announces routes of these keys with the value of this number, which all stand ready. It takes no
    /// memory.
    pub fn announce(&mut self, keys: &[Key], number: usize)
        requires { CanAnnounce self.old keys.now number }
        ensures { (steps : List Step) (written : Written)
            → value_at self.old.table number ≡ Some written
            → Stands steps self.old → Stands (Announced keys.now written ∷ steps) self.new }
    {
        set_each(&mut self.table, keys, number, Owner::Helper);
    }

    /// A helper withdraws the routes of these keys, whoever asked for them.
    pub fn withdraw(&mut self, keys: &[Key])
        ensures { (steps : List Step) → Stands steps self.old
            → Stands (Withdrawn keys.now ∷ steps) self.new }
    {
        unset_each(&mut self.table, keys);
    }

    /// Takes all routes out of the table, whoever asked for them. It takes no memory.
    pub fn clear(&mut self)
        ensures { (steps : List Step) → Stands steps self.old → Stands (Cleared ∷ steps) self.new }
    {
        unset_all(&mut self.table);
    }

    /// A session comes up, on which nothing was sent. One that stood ends.
    pub fn up(&mut self, caps: Caps)
        ensures { (steps : List Step) → Stands steps self.old → Stands (Up caps ∷ steps) self.new }
    {
        self.table.up(caps);
        self.session = Some(caps);
        self.reset = None;
    }

    /// The session goes down. Where none stands nothing changes.
    pub fn down(&mut self)
        ensures { (steps : List Step) → Stands steps self.old → Stands (Down ∷ steps) self.new }
    {
        self.table.down();
        self.session = None;
        self.reset = None;
    }

    /// The session is to end with this code (RFC 4271, section 4.5). The first code stands until it is down.
    pub fn end(&mut self, code: Code)
        ensures stands { (steps : List Step) → Stands steps self.old
            → Stands (Ended code ∷ steps) self.new }
        ensures ended { live_caps self.new ≡ None }
    {
        self.reset = self.reset.or(Some(code));
        self.table.down();
    }

    /// The family's routes are to be sent again by the next batch (RFC 2918). Without a live session nothing changes.
    pub fn refresh(&mut self, family: Family)
        ensures { (steps : List Step) → Stands steps self.old
            → Stands (Refreshed family ∷ steps) self.new }
    {
        self.table.refresh(family);
    }

    /// The routes of both families are to be sent again by the next batch. Without a live session nothing changes.
    pub fn flush(&mut self)
        ensures { (steps : List Step) → Stands steps self.old
            → Stands (Refreshed Family.Ipv6 ∷ Refreshed Family.Ipv4 ∷ steps) self.new }
    {
        self.refresh(Family::Ipv4);
        self.refresh(Family::Ipv6);
    }

    /// Makes the next message of the session in an empty buffer, and answers what it is: nothing where no session
    /// stands, where a code ended it, or where nothing is owed. It takes no memory.
    pub fn cut(&mut self, out: &mut Message) -> Cut
        requires empty { out.old.bytes ≡ [] }
        requires room { (caps : Carried) → self.old.session ≡ Some caps → room caps ≤ out.old.room }
        ensures may { (steps : List Step) → Stands steps self.old
            → MayAnswer steps (answered out.new.bytes result)
            × Stands (CutStep (answered out.new.bytes result) ∷ steps) self.new }
        ensures room { out.new.room ≡ out.old.room }
    {
        let Some(caps) = self.session else {
            return Cut::NoSession;
        };
        if let Some(code) = self.reset {
            return Cut::Reset(code);
        }
        // For the proof: what is written spells what it is meant to.
        reading_is_spelling();
        written_is_spelled();
        match cut_next(&mut self.table, caps, out) {
            None => Cut::Nothing,
            Some(last) => Cut::Message { last },
        }
    }
}

// The session that stands where none is live: one that a code ended.
fn ended(session: Option<Caps>, reset: Option<Code>) -> Option<Caps>
    ensures { result ≡ (if is_some reset then session else None) }
{
    match reset {
        Some(_) => session,
        None => None,
    }
}
