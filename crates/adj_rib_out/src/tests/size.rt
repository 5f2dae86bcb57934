//! A table of a million keys: that it finds memory, and how much it takes.

use super::{SIDE, announce, is_through, net};
use crate::{Due, Owner, Rib};
use route_values::{Attrs, Caps, Family, Hop, Key, NoMemory};
use std::alloc::Global;
use std::fs;
use std::hash::RandomState;
use std::test::*;

const KEYS: usize = 1_000_000;

// How many values the keys share.
const VALUES: usize = 16;

// How many bytes a key may take.
const BYTES: usize = 250;

// How many bytes of memory the process holds, by what the system tells of it.
fn resident(rt: &HostRuntime) -> Result<usize, Fail> {
    let text = fs::read_to_string(rt, "/proc/self/status")?;
    for line in text.lines() {
        let mut words = line.split_whitespace();
        if words.next() == Some("VmRSS:") {
            let kilobytes: usize = words
                .next()
                .ok_or("a number")?
                .parse()
                .ok()
                .ok_or("a number")?;
            return Ok(kilobytes.wrapping_mul(1_024));
        }
    }
    Err("no line on memory")?
}

fn nets(alloc: Global, from: usize) -> Result<Vec<Key>, Fail> {
    let mut keys = Vec::new(alloc);
    for number in 0..KEYS {
        keys.push(net(from.wrapping_add(number))?)?;
    }
    Ok(keys)
}

fn values(alloc: Global) -> Result<Vec<Attrs>, NoMemory> {
    let mut values = Vec::new(alloc);
    for number in 0..VALUES {
        let mut attrs = Attrs::new(alloc, Hop::Own);
        attrs.med = Some(number as u32);
        values.push(attrs)?;
    }
    Ok(values)
}

// Gives each key a route, with one value after another.
fn announce_all(rib: &mut Rib, keys: &[Key], values: &[Attrs]) -> Result<(), NoMemory> {
    for (key, number) in keys.iter().zip(0_usize..) {
        if let Some(written) = values.get(number % VALUES) {
            announce(rib, key, written, Owner::Static)?;
        }
    }
    Ok(())
}

// Opens a batch and passes it, and tells how many keys it announced.
fn send(rib: &mut Rib) -> usize {
    if is_through(rib) {
        rib.freeze();
    }
    let mut count: usize = 0;
    for _ in 0..KEYS + 2 {
        if matches!(rib.due(), Due::Here(..)) {
            count = count.wrapping_add(1);
        }
        rib.sent();
    }
    count
}

// A table that was sent a million routes, and how many bytes the process took for it.
fn taken(
    rt: &HostRuntime,
    hasher: RandomState,
    keys: &[Key],
    values: &[Attrs],
) -> Result<usize, Fail> {
    let before = resident(rt)?;
    let mut rib = Rib::new(rt.alloc(), SIDE, hasher);
    announce_all(&mut rib, keys, values)?;
    rib.up(Caps::none().with(Family::Ipv4, false));
    let sent = send(&mut rib);
    rib.refresh(Family::Ipv4);
    let sent_again = send(&mut rib);
    let after = resident(rt)?;
    if sent == KEYS && sent_again == KEYS && rib.nodes() == KEYS {
        Ok(after.saturating_sub(before))
    } else {
        Err("not all were sent")?
    }
}

#[test]
fn a_million_keys_that_share_values_take_at_most_250_bytes_each(
    rt: HostRuntime,
) -> Result<(), Fail> {
    let hasher = RandomState::new(&rt)?;
    let keys = nets(rt.alloc(), 0)?;
    let values = values(rt.alloc())?;
    let taken = taken(&rt, hasher, &keys, &values)?;
    assert!(rt; taken <= BYTES * KEYS, "{taken} bytes");
    Ok(())
}

// How many places there are once the keys stood ready, were trimmed, and as many others stand ready.
fn places(alloc: Global, hasher: RandomState) -> Result<usize, Fail> {
    let keys = nets(alloc, 0)?;
    let others = nets(alloc, KEYS)?;
    let written = Attrs::new(alloc, Hop::Own);
    let mut rib = Rib::new(alloc, SIDE, hasher);
    rib.ready(&keys, &written)?;
    rib.trim();
    rib.ready(&others, &written)?;
    Ok(rib.places())
}

#[test]
fn places_of_a_million_keys_are_used_again_once_these_are_trimmed(
    rt: HostRuntime,
) -> Result<(), Fail> {
    let hasher = RandomState::new(&rt)?;
    let places = places(rt.alloc(), hasher)?;
    assert!(rt; KEYS <= places && places <= KEYS + 1);
    Ok(())
}

// Sends a key with a value that differs from all earlier ones, and tells whether its numbers are small.
fn numbers_are_small(rib: &mut Rib, alloc: Global, key: &Key, med: u32) -> Result<bool, NoMemory> {
    let mut written = Attrs::new(alloc, Hop::Own);
    written.med = Some(med);
    let value = rib.ready(&[*key], &written)?;
    rib.set(key, value, Owner::Static);
    if is_through(rib) {
        rib.freeze();
    }
    let is_small = match rib.due() {
        Due::Here(number, _, _) => value < 3 && number < 8,
        _ => false,
    };
    // The announcement, and in the first batch the marker.
    rib.sent();
    rib.sent();
    rib.trim();
    Ok(is_small)
}

#[test]
fn numbers_of_values_are_used_again_once_these_are_trimmed(rt: HostRuntime) -> Result<(), Fail> {
    let hasher = RandomState::new(&rt)?;
    let key = net(0)?;
    let mut rib = Rib::new(rt.alloc(), SIDE, hasher);
    rib.up(Caps::none().with(Family::Ipv4, false));
    for med in 0..1_000 {
        assert!(rt;
            numbers_are_small(&mut rib, rt.alloc(), &key, med)?,
            "value {med}"
        );
    }
    Ok(())
}
