//! Messages that are filled from the table.

ghost use Rattle.std.specs.Prelude.{◌≡◌, ◌≤◌, [], ◌∷◌, false, IsTrue, IfOk, IfSome};
ghost use Rattle.route_values.specs.declared.addr.Family.TheVariants.{Ipv4};
ghost use Rattle.batch_cutter.specs.Filling.{CanFill};
ghost use Rattle.batch_cutter.specs.Heads.{IsRoute};
ghost use Rattle.batch_cutter.specs.Items.{item_told};

use super::{SIDE, announce, is_through, net};
use crate::{Due, Owner, Rib};
use attr_codec::Message;
use batch_cutter::{Batch, fill};
use pooled_attrs::{WireRef, tests_decide};
use route_values::{
    Addr, AsPath, Attrs, Caps, Family, Hop, Items, Key, NoMemory, Origin, Segment, WireAttrs,
};
use std::alloc::Global;
use std::hash::RandomState;
use std::test::*;

// How many bytes a buffer has room for that serves every session.
const ROOM: usize = 65_535;

// How many prefixes get each of two values: one more than a message of 4,096 bytes holds.
const COUNT: usize = 1_014;

// The next hops of the two values: 192.0.2.1 and 192.0.2.7.
const FIRST: u32 = 0xC000_0201;

const SECOND: u32 = 0xC000_0207;

// What is sent with a next hop where nothing else was written: the origin IGP and the path 65001.
fn route(alloc: Global, hop: u32) -> Result<WireAttrs, NoMemory>
    ensures { IfOk result (λ w. IsRoute Ipv4 w) }
{
    Ok(WireAttrs::new(alloc, Addr::V4(hop), Origin::Igp, path(alloc)?))
}

fn path(alloc: Global) -> Result<AsPath, NoMemory>
    ensures { IfOk result (λ path.
        path ≡ record { set = false; numbers = 65001 ∷ [] } ∷ []) }
{
    let numbers = Items::from_vec(vec![in alloc; 65001]?);
    let only = Segment {
        set: false,
        numbers,
    };
    Ok(AsPath::from_segments(vec![in alloc; only]?))
}

// Whether both are the same.
fn is_same(attrs: &WireAttrs, other: &WireAttrs) -> bool
    ensures { IsTrue result → attrs.now ≡ other.now }
{
    tests_decide();
    WireRef { attrs } == WireRef { attrs: other }
}

// Whether a message can begin with what is due: of attributes these are known to be those of a route.
fn can_begin(due: Due<'_>, first: &WireAttrs, second: &WireAttrs) -> bool
    requires first { IsRoute Ipv4 first.now }
    requires second { IsRoute Ipv4 second.now }
    ensures { IsTrue result → IfSome (item_told due.entry) (λ item. CanFill (item ∷ [])) }
{
    match due {
        Due::Here(_, key, attrs) => {
            key.family() == Family::Ipv4 && (is_same(attrs, first) || is_same(attrs, second))
        }
        _ => true,
    }
}

// A table that is filled into a buffer.
#[derive(Drop)]
struct Filling {
    rib: Rib,
    caps: Caps,
    out: Message,
    ghost roomy: { 65535 ≤ out.room },
}

impl Filling {
    // How many bytes the next message has; None where nothing is left.
    fn next_len(&mut self, first: &WireAttrs, second: &WireAttrs) -> Option<usize>
        requires first { IsRoute Ipv4 first.now }
        requires second { IsRoute Ipv4 second.now }
    {
        self.out.clear();
        if !can_begin(Batch::due(&self.rib), first, second) {
            return None;
        }
        if fill(&mut self.rib, self.caps, &mut self.out) {
            Some(self.out.bytes().len())
        } else {
            None
        }
    }

    // Fills a batch with all that is owed, and tells whether its messages have these lengths.
    fn fills(&mut self, first: &WireAttrs, second: &WireAttrs, lens: &[usize]) -> bool
        requires first { IsRoute Ipv4 first.now }
        requires second { IsRoute Ipv4 second.now }
    {
        if is_through(&self.rib) {
            self.rib.freeze();
        }
        let mut alike = true;
        for len in lens {
            alike = self.next_len(first, second) == Some(*len) && alike;
        }
        alike && self.next_len(first, second).is_none()
    }
}

// Gives the key of a number a route, or takes it from it.
fn give(rib: &mut Rib, number: usize, written: Option<&Attrs>) -> Result<(), Fail> {
    let key = net(number)?;
    match written {
        Some(written) => announce(rib, &key, written, Owner::Static)?,
        None => rib.unset(&key),
    }
    Ok(())
}

// Gives each second key from the first on a route, or takes it from it, and each other one a route.
fn give_in_turn(rib: &mut Rib, even: Option<&Attrs>, odd: &Attrs) -> Result<(), Fail> {
    for number in 0..COUNT {
        give(rib, 2 * number, even)?;
        give(rib, 2 * number + 1, Some(odd))?;
    }
    Ok(())
}

// Values as they are written, and as they are sent.
#[derive(Drop)]
struct Values {
    first: Attrs,
    second: Attrs,
    first_sent: WireAttrs,
    second_sent: WireAttrs,
}

// Whether two batches have messages of the lengths that are to be.
fn are_packed(filling: &mut Filling, values: &Values) -> Result<bool, Fail>
    requires first { IsRoute Ipv4 values.now.first_sent }
    requires second { IsRoute Ipv4 values.now.second_sent }
{
    let (first, second) = (&values.first_sent, &values.second_sent);
    give_in_turn(&mut filling.rib, Some(&values.first), &values.second)?;
    // Two values, and the marker.
    let packed = filling.fills(first, second, &[0x0FFF, 0x002F, 0x0FFF, 0x002F, 23]);
    give_in_turn(&mut filling.rib, None, &values.first)?;
    // Withdrawals, which have 23 bytes beside the prefixes, and the first value for the other keys.
    Ok(filling.fills(first, second, &[23 + 4 * COUNT, 0x0FFF, 0x002F]) && packed)
}

fn two_values(alloc: Global) -> Result<Values, NoMemory>
    ensures first { IfOk result (λ values. IsRoute Ipv4 values.first_sent) }
    ensures second { IfOk result (λ values. IsRoute Ipv4 values.second_sent) }
{
    let first_sent = route(alloc, FIRST)?;
    let second_sent = route(alloc, SECOND)?;
    Ok(Values {
        first: Attrs::new(alloc, Hop::Is(Addr::V4(FIRST))),
        second: Attrs::new(alloc, Hop::Is(Addr::V4(SECOND))),
        first_sent,
        second_sent,
    })
}

// An empty table on a session of IPv4, and a buffer.
fn on_ipv4(alloc: Global, hasher: RandomState) -> Result<Filling, NoMemory> {
    let caps = Caps::none().with(Family::Ipv4, false);
    let out = Message::new(alloc, ROOM)?;
    let mut rib = Rib::new(alloc, SIDE, hasher);
    rib.up(caps);
    Ok(Filling { rib, caps, out })
}

#[test]
fn messages_hold_as_many_prefixes_of_one_value_as_fit(rt: HostRuntime) -> Result<(), Fail> {
    let hasher = RandomState::new(&rt)?;
    let values = two_values(rt.alloc())?;
    let mut filling = on_ipv4(rt.alloc(), hasher)?;
    assert!(rt; are_packed(&mut filling, &values)?);
    Ok(())
}
