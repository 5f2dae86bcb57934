//! Events as a script tells them.
use route_values::{Caps, Family};
use text_forms::Line;

/// What a line of a script says. A helper slot `h` is below 16, and a neighbour slot `n` below 64.
#[derive(Clone, Copy, Debug, PartialEq)]
pub enum Event<'a> {
    /// `spawn H MS`: whether a helper may be started at a moment in milliseconds.
    Spawn { h: usize, now: u64 },
    /// `line H INC TEXT`: an incarnation of a helper says this line, of which no carriage return is dropped.
    Line { h: usize, inc: u64, line: Line<'a> },
    /// `take H INC`: its replies are taken.
    Take { h: usize, inc: u64 },
    /// `deaf H INC`: it reads no more replies.
    Deaf { h: usize, inc: u64 },
    /// `gone H INC`: it is no more.
    Gone { h: usize, inc: u64 },
    /// `peer N`: which neighbour is in a slot.
    Peer { n: usize },
    /// `up N CAP ..`: a session comes up that agreed on these capabilities.
    Up { n: usize, caps: Caps },
    /// `down N`: it goes down.
    Down { n: usize },
    /// `refresh N FAMILY`: the neighbour asks for a family again.
    Refresh { n: usize, family: Family },
    /// `cut N`: its next message is made.
    Cut { n: usize },
    /// `drain N`: messages are made until none comes.
    Drain { n: usize },
    /// `control`: what the daemon is to do.
    Control,
    /// `reload PATH`: the file at a path is the new configuration.
    Reload { path: &'a str },
}

/// What a line of a script is.
#[derive(Clone, Copy, Debug, PartialEq)]
pub enum ScriptLine<'a> {
    /// It is blank, or begins with `#`.
    PassedOver,
    /// It says an event.
    Says(Event<'a>),
    /// It is in no production, or has more than 65,600 bytes.
    Bad,
}
