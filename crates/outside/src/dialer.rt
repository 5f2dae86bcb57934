//! What connects to peers.
ghost use Rattle.std.specs.Prelude.{◌≡◌, Some, List, ℕ};
ghost use Rattle.std.specs.declared.option.Option.{Option};
ghost use Rattle.route_values.specs.declared.settings.Settings.{Settings};

use crate::link::Link;
use route_values::Settings;

/// What a call to connect gave.
#[derive(Debug, Drop)]
pub enum Dialled<L> {
    /// A link to the peer. It goes back by `Dialer::give_back`.
    Open(L),
    /// There is no link. One fault was counted.
    Failed,
}

/// What connects to peers.
pub trait Dialer {
    ghost use Rattle.outside.specs.Opening.{CountsSource};
    ghost use Rattle.outside.specs.Ended.{EndedLink, link_of, Gathers};
    ghost use Rattle.outside.specs.Dialling.{
      DialCounts,
      DialFails,
      IsNewLink,
      HasNoNotes,
      IsDialledWith,
    };

    /// A connection to a peer.
    type Link: Link + Drop + Send;

    /// The links that have been given back, in order, where it tells them.
    ghost links: { Self → Option (List EndedLink) };

    /// What each call of `connect` was asked for, in order, where it tells it.
    ghost asked: { Self → Option (List Settings) };

    /// How many calls of `connect` have failed, where it tells it.
    ghost failed: { Self → Option ℕ };

    /// How often it has failed, its links included once they were given back. A count of 2^64 - 1
    /// stays there.
    ghost faults: { Self → ℕ };

    /// Connects from the local address of the settings to the peer's address and port.
    ///
    /// The link has given and taken nothing, was never quiet, hasn't ended and has no faults.
    /// Where it tells the settings that it was dialled with, they are these. `Failed` counts one
    /// fault, and `Open` none.
    fn connect(&mut self, to: &Settings) -> Dialled<Self::Link>
        ensures cause { DialCounts (faults self.old) (faults self.new) result }
        ensures link { IsNewLink Self.Link.given Self.Link.taken Self.Link.ended
            Self.Link.faults result }
        ensures quiets { HasNoNotes Self.Link.quiets result }
        ensures dialled { IsDialledWith Self.Link.dialled to.now result }
        ensures asked { Gathers (asked self.old) (asked self.new) (Some to.now) }
        ensures failed { DialFails (failed self.old) (failed self.new) result }
        ensures links { links self.new ≡ links self.old };

    /// Closes a link. One fault is counted where the link has faults, however many, and else none.
    fn give_back(&mut self, link: Self::Link)
        ensures links { Gathers (links self.old) (links self.new)
            (link_of (Self.Link.dialled link) (Self.Link.given link) (Self.Link.quiets link)
            (Self.Link.ended link) (Self.Link.taken link) (Self.Link.faults link)) }
        ensures cause { CountsSource (faults self.old) (faults self.new) (Self.Link.faults link) }
        ensures asked { asked self.new ≡ asked self.old }
        ensures failed { failed self.new ≡ failed self.old };
}
