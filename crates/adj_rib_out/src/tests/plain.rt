//! The table as a list of rows that are searched.

use crate::{Due, Entry, Owner};
use route_values::{Caps, Family, Key, NoMemory, visible};
use std::alloc::Global;

/// A route, by the two attributes in which the values of the drill differ. Of these MULTI_EXIT_DISC alone is sent.
#[derive(Clone, Copy, Debug, PartialEq, Eq)]
pub struct Route {
    pub med: Option<u32>,
    pub local_pref: Option<u32>,
    pub owner: Owner,
}

/// What an entry shows, where it is sent with the MULTI_EXIT_DISC that was written.
pub fn route_of(entry: Entry<'_>) -> Option<Route> {
    if entry.attrs.med != entry.written.med {
        return None;
    }
    Some(Route {
        med: entry.written.med,
        local_pref: entry.written.local_pref,
        owner: entry.owner,
    })
}

/// A key, with what the table has, what was sent, and what the open batch is still to say. What is sent is seen as its
/// MULTI_EXIT_DISC.
#[derive(Clone, Copy)]
pub struct Row {
    pub key: Key,
    pub route: Option<Route>,
    pub told: Option<u32>,
    pub left: Option<Option<u32>>,
}

impl Row {
    // What the session is to have of the key.
    fn shown(&self, caps: Option<Caps>) -> Option<u32> {
        let caps = caps?;
        if visible(&self.key, &caps) {
            self.route?.med
        } else {
            None
        }
    }

    /// Whether the key would be a node without the table.
    pub fn is_kept(&self) -> bool {
        self.told.is_some() || matches!(self.left, Some(Some(_)))
    }

    /// Whether the key is a node.
    pub fn is_node(&self) -> bool {
        self.route.is_some() || self.is_kept()
    }
}

// What the items of a message have in common, and the number of their value; withdrawals have the number 0.
#[derive(Clone, Copy, PartialEq, Eq)]
struct Kind {
    family: Family,
    says: Option<u32>,
    number: usize,
}

impl Kind {
    // Whether an item of this kind may come behind one of another kind: withdrawals come first, IPv4 before IPv6, and
    // two numbers stand for two values.
    fn may_follow(self, past: Kind) -> bool {
        if past.says.is_none() {
            return self.says.is_some() || past.family < self.family;
        }
        let differs = self.says != past.says || self.family != past.family;
        self.says.is_some() && differs && self.number != past.number
    }
}

/// A table of rows.
#[derive(Drop)]
pub struct Plain {
    pub rows: Vec<Row>,
    pub caps: Option<Caps>,
    begun: bool,
    // Which families are to be sent again, and whose markers are left: IPv4 and IPv6.
    again: [bool; 2],
    markers: [bool; 2],
    // The kinds that the open batch has sent.
    past: Vec<Kind>,
}

impl Plain {
    pub fn new(alloc: Global) -> Self {
        Plain {
            rows: Vec::new(alloc),
            caps: None,
            begun: false,
            again: [false, false],
            markers: [false, false],
            past: Vec::new(alloc),
        }
    }

    pub fn add(&mut self, key: Key) -> Result<(), NoMemory> {
        self.rows.push(Row {
            key,
            route: None,
            told: None,
            left: None,
        })?;
        Ok(())
    }

    pub fn set(&mut self, number: usize, route: Option<Route>) {
        if let Some(row) = self.rows.get_mut(number) {
            row.route = route;
        }
    }

    pub fn restart(&mut self, caps: Option<Caps>) {
        for row in &mut self.rows {
            row.told = None;
            row.left = None;
        }
        self.caps = caps;
        self.begun = false;
        self.again = [false, false];
        self.markers = [false, false];
    }

    pub fn refresh(&mut self, family: Family) {
        if self.caps.is_none() {
            return;
        }
        match family {
            Family::Ipv4 => self.again[0] = true,
            Family::Ipv6 => self.again[1] = true,
        }
    }

    /// Opens a batch with all that is owed, and tells whether none was open.
    pub fn freeze(&mut self) -> bool {
        let through = self.rows.iter().all(|row| row.left.is_none())
            && self.markers == [false, false];
        self.markers = [
            self.owes_marker(Family::Ipv4),
            self.owes_marker(Family::Ipv6),
        ];
        let [ipv4, ipv6] = self.markers;
        let mut opens = ipv4 || ipv6;
        for row in &mut self.rows {
            let [ipv4_again, ipv6_again] = self.again;
            let again = match row.key.family() {
                Family::Ipv4 => ipv4_again,
                Family::Ipv6 => ipv6_again,
            };
            let shown = row.shown(self.caps);
            let owed = row.told != shown || (shown.is_some() && again);
            row.left = if owed { Some(shown) } else { None };
            opens = opens || owed;
        }
        if opens {
            self.begun = true;
            self.again = [false, false];
        }
        self.past.clear();
        through
    }

    fn owes_marker(&self, family: Family) -> bool {
        match self.caps {
            Some(caps) => caps.has(family) && !self.begun,
            None => false,
        }
    }

    /// Passes what is due, and tells whether it was left and may come now.
    pub fn pass(&mut self, due: Due<'_>) -> Result<bool, NoMemory> {
        match due {
            Due::Gone(key) => self.pass_key(key, None, 0),
            Due::Here(number, key, attrs) => self.pass_key(key, attrs.med, number),
            Due::End(family) => Ok(self.pass_marker(family)),
            Due::Empty => Ok(false),
        }
    }

    fn pass_key(&mut self, key: &Key, says: Option<u32>, number: usize) -> Result<bool, NoMemory> {
        let comes = self.comes(Kind {
            family: key.family(),
            says,
            number,
        })?;
        let mut was_left = false;
        for row in &mut self.rows {
            if row.key == *key {
                was_left = row.left == Some(says);
                row.left = None;
                row.told = says;
            }
        }
        Ok(comes && was_left)
    }

    fn comes(&mut self, kind: Kind) -> Result<bool, NoMemory> {
        if self.past.last() == Some(&kind) {
            return Ok(true);
        }
        let comes = self.past.iter().all(|past| kind.may_follow(*past));
        self.past.push(kind)?;
        Ok(comes)
    }

    fn pass_marker(&mut self, family: Family) -> bool {
        let through = self.rows.iter().all(|row| row.left.is_none());
        let [ipv4, ipv6] = self.markers;
        match family {
            Family::Ipv4 => {
                self.markers = [false, ipv6];
                through && ipv4
            }
            Family::Ipv6 => {
                self.markers = [ipv4, false];
                through && ipv6 && !ipv4
            }
        }
    }

    /// How many nodes there are.
    pub fn nodes(&self) -> usize {
        self.rows.iter().filter(|row| row.is_node()).count()
    }
}
