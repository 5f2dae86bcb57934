//! The machine of a session.
ghost use Rattle.std.specs.Prelude.{◌≡◌};

use crate::action::Actions;
use crate::event::Event;
use crate::state::State;
use crate::table::row;
use route_values::Settings;
use std::marker::Model;

// The hold time in seconds before an OPEN was taken (RFC 4271, section 8.2.2).
const FIRST_HOLD: u16 = 240;

/// A session with a neighbour (RFC 4271, section 8.2.2): its own settings, and how far it has come.
#[derive(Debug, Drop)]
pub struct Machine {
    own: Settings,
    state: State,
}

impl Model for Machine {
    ghost use Rattle.session_machine.specs.Session.{Session};

    ghost Value = { Session };

    ghost view = { λ machine. record { own = machine.own; state = machine.state } };
}

impl Machine {
    ghost use Rattle.session_machine.specs.Session.{fresh, hold_of};
    ghost use Rattle.session_machine.specs.Table.{table, UpIsLast};

    /// A session with these own settings, before there is a connection.
    pub fn new(own: Settings) -> Machine
        ensures { result ≡ fresh own }
    {
        Machine {
            own,
            state: State::Idle,
        }
    }

    /// What is to be done at an event, in order, by the table at [`State`].
    pub fn step(&mut self, event: Event<'_>) -> Actions
        ensures actions { result.items ≡ (table self.old.own self.old.state event.entry).actions }
        ensures state { self.new ≡
            record self.old { state = (table self.old.own self.old.state event.entry).state } }

        // What a caller needs who does the actions one after another.
        ensures up_last { UpIsLast result.items }
    {
        let step = row(&self.own, &self.state, event);
        self.state = step.state;
        step.actions
    }

    /// How far the session has come.
    pub fn state(&self) -> State
        ensures { result ≡ self.now.state }
    {
        self.state
    }

    /// The hold time in seconds: 240 until an OPEN was taken, and then the one that both sides agree on, where 0 says
    /// that there are no timers (RFC 4271, section 4.2). The next session begins with 240 again.
    pub fn hold(&self) -> u16
        ensures { result ≡ hold_of self.now.state }
    {
        match self.state {
            State::Idle | State::OpenSent => FIRST_HOLD,
            State::OpenConfirm(agreed) | State::Established(agreed) => agreed.hold,
        }
    }
}
