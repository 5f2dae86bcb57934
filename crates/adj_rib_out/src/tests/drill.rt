//! Random calls, on a table and on a plain list.

ghost use Rattle.std.specs.Prelude.{◌<◌};

use super::plain::{Plain, Route, Row, route_of};
use super::{SIDE, announce, is_through};
use crate::{Owner, Rib};
use route_values::{Addr, Attrs, Caps, Family, Hop, Key, NoMemory, Prefix};
use std::alloc::Global;
use std::hash::RandomState;
use std::test::*;

// How many keys there are of each family: half of them have a path identifier.
const KEYS: usize = 24;

// How many values there are: two that are sent alike for each MULTI_EXIT_DISC.
const VALUES: usize = 60;

// A generator of random numbers that always gives the same ones.
#[derive(Drop)]
struct Dice {
    seed: u64,
}

impl Dice {
    // A number below the bound.
    fn below(&mut self, bound: usize) -> usize
        requires { 0 < bound }
        ensures { result < bound }
    {
        self.seed = self
            .seed
            .wrapping_mul(6364136223846793005)
            .wrapping_add(1442695040888963407);
        (self.seed >> 33) as usize % bound
    }

    fn family(&mut self) -> Family {
        if self.below(2) == 0 {
            Family::Ipv4
        } else {
            Family::Ipv6
        }
    }

    fn owner(&mut self) -> Owner {
        if self.below(2) == 0 {
            Owner::Static
        } else {
            Owner::Helper
        }
    }

    fn caps(&mut self) -> Caps {
        let mut caps = Caps::none();
        if self.below(4) > 0 {
            caps = caps.with(Family::Ipv4, self.below(2) == 0);
        }
        if self.below(4) > 0 {
            caps = caps.with(Family::Ipv6, self.below(2) == 0);
        }
        caps
    }
}

// The same prefixes with each identifier, 0 and 7.
fn key(addr: Addr, len: u8, number: usize) -> Option<Key> {
    let prefix = Prefix::new(addr, len)?;
    let id = if number % 2 == 0 { 0 } else { 7 };
    Some(Key { prefix, id })
}

fn plain_table(alloc: Global) -> Result<Plain, Fail> {
    let mut plain = Plain::new(alloc);
    for number in 0..KEYS {
        let prefix = (number / 2) as u32;
        plain.add(key(Addr::V4(prefix << 8), 24, number).ok_or("a key")?)?;
        plain.add(key(Addr::V6(u128::from(prefix) << 96), 32, number).ok_or("a key")?)?;
    }
    Ok(plain)
}

fn values(alloc: Global) -> Result<Vec<Attrs>, NoMemory> {
    let mut values = Vec::new(alloc);
    for number in 0..VALUES {
        let mut attrs = Attrs::new(alloc, Hop::Own);
        attrs.med = Some((number / 2) as u32);
        attrs.local_pref = Some((number % 2) as u32);
        values.push(attrs)?;
    }
    Ok(values)
}

#[derive(Drop)]
struct Drill {
    rib: Rib,
    plain: Plain,
    values: Vec<Attrs>,
    dice: Dice,
}

impl Drill {
    // A row of the plain table by chance, with its number.
    fn row(&mut self) -> Option<(usize, Row)> {
        let number = self.dice.below(2 * KEYS);
        let row = self.plain.rows.get(number)?;
        Some((number, *row))
    }

    // Makes a random call on both, and tells whether they agree.
    fn call(&mut self) -> Result<bool, NoMemory> {
        match self.dice.below(1_024) {
            0..=2 => {
                let caps = self.dice.caps();
                self.rib.up(caps);
                self.plain.restart(Some(caps));
                Ok(true)
            }
            3 => {
                self.rib.down();
                self.plain.restart(None);
                Ok(true)
            }
            4..=9 => {
                let family = self.dice.family();
                self.rib.refresh(family);
                self.plain.refresh(family);
                Ok(true)
            }
            10..=39 => {
                self.rib.trim();
                Ok(true)
            }
            40..=99 => self.ready(),
            100..=399 => self.set(),
            400..=549 => Ok(self.unset()),
            _ => self.send(),
        }
    }

    // Stands two keys and a value ready, and gives no route.
    fn ready(&mut self) -> Result<bool, NoMemory> {
        let Some((_, row)) = self.row() else {
            return Ok(false);
        };
        let Some((_, other)) = self.row() else {
            return Ok(false);
        };
        let Some(written) = self.values.get(self.dice.below(VALUES)) else {
            return Ok(false);
        };
        self.rib.ready(&[row.key, other.key], written)?;
        Ok(true)
    }

    fn set(&mut self) -> Result<bool, NoMemory> {
        let owner = self.dice.owner();
        let Some((number, row)) = self.row() else {
            return Ok(false);
        };
        let Some(written) = self.values.get(self.dice.below(VALUES)) else {
            return Ok(false);
        };
        announce(&mut self.rib, &row.key, written, owner)?;
        self.plain.set(
            number,
            Some(Route {
                med: written.med,
                local_pref: written.local_pref,
                owner,
            }),
        );
        Ok(true)
    }

    fn unset(&mut self) -> bool {
        let Some((number, row)) = self.row() else {
            return false;
        };
        self.rib.unset(&row.key);
        self.plain.set(number, None);
        true
    }

    // Passes what is due, or opens a batch where none is open.
    fn send(&mut self) -> Result<bool, NoMemory> {
        if is_through(&self.rib) {
            self.rib.freeze();
            return Ok(self.plain.freeze());
        }
        let agrees = self.plain.pass(self.rib.due())?;
        self.rib.sent();
        Ok(agrees)
    }

    // Whether both say the same of a key, and of how many keys are nodes.
    fn agrees(&mut self) -> bool {
        let Some((_, row)) = self.row() else {
            return false;
        };
        let route = match self.rib.get(&row.key) {
            Some(entry) => route_of(entry),
            None => None,
        };
        route == row.route
            && self.rib.is_node(&row.key) == row.is_node()
            && self.rib.is_kept(&row.key) == row.is_kept()
            && self.rib.nodes() == self.plain.nodes()
            && self.rib.caps() == self.plain.caps
    }

    // Whether the table's places show each route once.
    fn lists(&self) -> bool {
        let mut shown = 0;
        for place in 0..self.rib.places() {
            if let Some((key, entry)) = self.rib.at(place) {
                let route = route_of(entry);
                if self
                    .plain
                    .rows
                    .iter()
                    .any(|row| row.key == *key && row.route == route)
                {
                    shown = usize::wrapping_add(shown, 1);
                }
            }
        }
        shown
            == self
                .plain
                .rows
                .iter()
                .filter(|row| row.route.is_some())
                .count()
    }

    // Makes so many random calls, and tells the first one behind which both disagree.
    fn differs(&mut self, calls: usize) -> Result<Option<usize>, NoMemory> {
        for count in 0..calls {
            let agrees = self.call()? && self.agrees() && (count % 1_000 > 0 || self.lists());
            if !agrees {
                return Ok(Some(count));
            }
        }
        Ok(None)
    }
}

fn fresh_drill(alloc: Global, hasher: RandomState) -> Result<Drill, Fail> {
    let plain = plain_table(alloc)?;
    let values = values(alloc)?;
    Ok(Drill {
        rib: Rib::new(alloc, SIDE, hasher),
        plain,
        values,
        dice: Dice { seed: 1 },
    })
}

#[test]
fn a_million_random_calls_are_answered_as_a_plain_list_does(rt: HostRuntime) -> Result<(), Fail> {
    let hasher = RandomState::new(&rt)?;
    let mut drill = fresh_drill(rt.alloc(), hasher)?;
    assert_eq!(rt; drill.differs(1_000_000)?, None);
    assert!(rt; drill.rib.places() <= 2 * KEYS + 1, "places are used again");
    Ok(())
}
