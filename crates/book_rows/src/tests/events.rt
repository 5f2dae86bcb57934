//! The events of a story.
ghost use Rattle.std.specs.Prelude.{◌<◌};
ghost use Rattle.config_model.specs.Limits.{max_peers};

use route_values::{Caps, Family};

// An event with the text of its answer. Blanks in the text are for reading alone. A message is told without its marker,
// in hexadecimal.
pub type Step = (Event, &'static str);

// The first helper is started, and the first neighbour's session comes up with IPv4.
pub const START: [Step; 3] = [
    (Event::Spawn(0), "go 1"),
    (Event::Peer(At::First), "peer"),
    (Event::Up(At::First, Carried::Ipv4), "up"),
];

// An event. All lines are those of the first helper slot.
#[derive(Clone, Copy)]
pub enum Event {
    // The helper is to be started at this moment.
    Spawn(u64),
    // This incarnation says a line.
    Line(u64, &'static str),
    // The first incarnation says a line so many times, or until it isn't done. The last answer is told.
    Lines(u32, &'static str),
    // The first incarnation announces so many prefixes, from this number on, in one line with these words in front.
    Block(&'static str, u32, u32),
    // This incarnation takes replies.
    Take(u64),
    // It does so, and how many it takes is told, and whether each is `done`.
    Count(u64),
    // It reads no more replies.
    Deaf(u64),
    // It ends.
    Gone(u64),
    // Which neighbour is in a slot?
    Peer(At),
    // A session comes up, with the settings that were told last.
    Up(At, Carried),
    Down(At),
    Refresh(At, Family),
    Cut(At),
    // A message is cut, and its length and how many prefixes it announces is told.
    Measure(At),
    // Messages are cut until none comes, and how many there were is told.
    Drain(At),
    Control,
    // A file is read again.
    Reload(&'static str),
}

// A neighbour slot.
#[derive(Clone, Copy)]
pub enum At {
    First,
    Second,
}

impl At {
    pub fn slot(self) -> usize
        ensures { result < max_peers }
    {
        match self {
            At::First => 0,
            At::Second => 1,
        }
    }
}

// What a session carries.
#[derive(Clone, Copy)]
pub enum Carried {
    Ipv4,
    Ipv6,
    Both,
    Ipv4Path,
    Ipv4Extended,
}

impl Carried {
    pub fn caps(self) -> Caps {
        let none = Caps::none();
        match self {
            Carried::Ipv4 => none.with(Family::Ipv4, false),
            Carried::Ipv6 => none.with(Family::Ipv6, false),
            Carried::Both => none.with(Family::Ipv4, false).with(Family::Ipv6, false),
            Carried::Ipv4Path => none.with(Family::Ipv4, true),
            Carried::Ipv4Extended => none.with(Family::Ipv4, false).with_extended(),
        }
    }
}
