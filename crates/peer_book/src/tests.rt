//! What no clause says: that the calls find memory, which bytes are cut, and in which order.
ghost use Rattle.std.specs.Prelude.{◌≤◌};

mod calls;

use crate::{Code, Cut, PeerSlot};
use attr_codec::Message;
use calls::{announce, placed, reload, resettle, vacate};
use config_model::StaticRoute;
use route_values::{Addr, Attrs, Caps, Family, Hop, Key, NoMemory, Prefix, Settings};
use std::alloc::Global;
use std::test::*;

// How many bytes a buffer has room for that serves every session.
const ROOM: usize = 65_535;

// How many static routes a long file has: more than a message of 4,096 bytes holds.
const MANY: u16 = 1_024;

// The bytes in front of the length of a message (RFC 4271, section 4.1).
const MARKER: [u8; 16] = [0xFF; 16];

// The addresses 192.0.2.1, 192.0.2.7, 192.0.2.8 and 192.0.2.9.
const FIRST: u32 = 0xC000_0201;

const SEVENTH: u32 = 0xC000_0207;

const EIGHTH: u32 = 0xC000_0208;

const NINTH: u32 = 0xC000_0209;

// UPDATE messages (RFC 4271, section 4.3) behind that marker: the first key with the next hop 192.0.2.1.
const ROUTE: &[u8] = &[
    0x00, 0x2F, 2, // length and type
    0, 0, 0, 0x14, // nothing is withdrawn; 20 bytes of attributes
    0x40, 1, 1, 0, // ORIGIN: IGP
    0x40, 2, 6, 2, 1, 0, 0, 0xFD, 0xE9, // AS_PATH: 65001
    0x40, 3, 4, 192, 0, 2, 1, // NEXT_HOP
    24, 10, 0, 0,
];

// The same with the next hop 192.0.2.7.
const OTHER: &[u8] = &[
    0x00, 0x2F, 2, 0, 0, 0, 0x14, 0x40, 1, 1, 0, 0x40, 2, 6, 2, 1, 0, 0, 0xFD, 0xE9, 0x40, 3, 4,
    192, 0, 2, 7, 24, 10, 0, 0,
];

// The second and the third key with the next hop 192.0.2.8.
const TWO: &[u8] = &[
    0x00, 0x33, 2, 0, 0, 0, 0x14, 0x40, 1, 1, 0, 0x40, 2, 6, 2, 1, 0, 0, 0xFD, 0xE9, 0x40, 3, 4,
    192, 0, 2, 8, 24, 10, 0, 1, 24, 10, 0, 2,
];

// The first key is withdrawn.
const GONE: &[u8] = &[0x00, 0x1B, 2, 0, 4, 24, 10, 0, 0, 0, 0];

// An UPDATE without a field, which ends IPv4 (RFC 4724, section 2).
const END: &[u8] = &[0x00, 0x17, 2, 0, 0, 0, 0];

// The settings of a neighbour of another AS, with this local address.
fn settings(local: u32) -> Settings {
    Settings {
        peer: Addr::V4(0xC000_0202),
        local: Addr::V4(local),
        port: 179,
        local_as: 65_001,
        peer_as: 65_002,
        router_id: 0xC000_0209,
        hold: 180,
        ipv4: true,
        ipv6: false,
        ipv4_send: false,
        ipv6_send: false,
        ipv4_receive: false,
        ipv6_receive: false,
        refresh: true,
        extended: false,
    }
}

// 10.0.0.0/24, or one of those that follow.
fn net(number: u16) -> Result<Key, Fail> {
    let addr = Addr::V4(0x0A00_0000 + u32::from(number) * 256);
    let prefix = Prefix::new(addr, 24).ok_or("a prefix")?;
    Ok(Key { prefix, id: 0 })
}

// Static routes of these keys with this next hop.
fn statics(alloc: Global, keys: &[Key], hop: Hop) -> Result<Vec<StaticRoute>, NoMemory> {
    let mut routes = Vec::new(alloc);
    for key in keys {
        let attrs = Attrs::new(alloc, hop);
        routes.push(StaticRoute { key: *key, attrs })?;
    }
    Ok(routes)
}

// The keys of a long file.
fn many(alloc: Global) -> Result<Vec<Key>, Fail> {
    let mut keys = Vec::new(alloc);
    for number in 0..MANY {
        keys.push(net(number)?)?;
    }
    Ok(keys)
}

// A slot whose messages are cut into a buffer.
#[derive(Drop)]
struct Peer {
    slot: PeerSlot,
    out: Message,
    ghost roomy: { 65535 ≤ out.room },
}

impl Peer {
    // Brings a session of IPv4 up.
    fn up(&mut self) {
        self.slot.up(Caps::none().with(Family::Ipv4, false));
    }

    fn cut(&mut self) -> Cut {
        self.out.clear();
        self.slot.cut(&mut self.out)
    }

    // Whether the next message is this one behind the marker, and the last of its batch or not.
    fn sends_one(&mut self, message: &[u8], last: bool) -> bool {
        let cut = self.cut();
        let bytes = self.out.bytes();
        cut == Cut::Message { last } && bytes.strip_prefix(&MARKER) == Some(message)
    }

    // Whether just these messages are sent, in one batch.
    fn sends(&mut self, messages: &[&[u8]]) -> bool {
        let mut alike = true;
        for place in 0..messages.len() {
            alike = self.sends_one(messages[place], place + 1 == messages.len()) && alike;
        }
        alike && self.cut() == Cut::Nothing
    }

    // Whether just messages of these lengths are sent.
    fn sends_lens(&mut self, lens: &[usize]) -> bool {
        let mut alike = true;
        for len in lens {
            self.cut();
            alike = self.out.bytes().len() == *len && alike;
        }
        alike && self.cut() == Cut::Nothing
    }
}

// A neighbour with these static routes.
fn neighbour(rt: &HostRuntime, settings: Settings, statics: &[StaticRoute]) -> Result<Peer, Fail> {
    let out = Message::new(rt.alloc(), ROOM)?;
    let slot = placed(rt, settings, statics)?;
    Ok(Peer { slot, out })
}

// Goes on where something holds.
fn expect(holds: bool, what: &str) -> Result<(), Fail> {
    if holds {
        return Ok(());
    }
    Err(what.into())
}

// A route is sent, sent again, and withdrawn, and is a node until then.
fn comes_and_goes(alloc: Global, peer: &mut Peer, key: &Key) -> Result<(), Fail> {
    peer.up();
    announce(alloc, &mut peer.slot, key, FIRST)?;
    expect(peer.sends(&[ROUTE, END]), "the route, and the marker")?;
    peer.slot.refresh(Family::Ipv4);
    expect(peer.sends(&[ROUTE]), "the route again")?;
    peer.slot.withdraw(&[*key]);
    expect(peer.slot.nodes() == 1, "what was sent is a node")?;
    expect(peer.slot.adds(&[*key]) == 0, "and adds none")?;
    expect(peer.sends(&[GONE]), "the withdrawal")?;
    expect(peer.slot.nodes() == 0, "and then none")?;
    expect(peer.slot.adds(&[*key, *key]) == 1, "a key counts once")
}

#[test]
fn a_route_is_sent_once_and_withdrawn_once(rt: HostRuntime) -> Result<(), Fail> {
    let key = net(0)?;
    let mut peer = neighbour(&rt, settings(NINTH), &[])?;
    comes_and_goes(rt.alloc(), &mut peer, &key)
}

// A helper's route stays at a reload, the file's stands once the helper withdraws its own, and goes with its line.
fn stays(alloc: Global, peer: &mut Peer, key: &Key, file: &[StaticRoute]) -> Result<(), Fail> {
    peer.up();
    announce(alloc, &mut peer.slot, key, FIRST)?;
    expect(
        peer.sends(&[ROUTE, END]),
        "the helper's route, and the marker",
    )?;
    expect(reload(alloc, &mut peer.slot, file)?, "the nodes")?;
    expect(peer.sends(&[]), "the helper's route stays")?;
    peer.slot.withdraw(&[*key]);
    expect(
        reload(alloc, &mut peer.slot, file)?,
        "the nodes with the file's route",
    )?;
    expect(
        peer.sends(&[OTHER]),
        "the file's route stands where none does",
    )?;
    expect(
        reload(alloc, &mut peer.slot, &[])?,
        "the nodes of an empty file",
    )?;
    expect(peer.sends(&[GONE]), "the file's route goes with its line")
}

#[test]
fn a_reload_leaves_helpers_routes_and_those_of_the_file(rt: HostRuntime) -> Result<(), Fail> {
    let key = net(0)?;
    let file = statics(rt.alloc(), &[key], Hop::Is(Addr::V4(SEVENTH)))?;
    let mut peer = neighbour(&rt, settings(NINTH), &[])?;
    stays(rt.alloc(), &mut peer, &key, &file)
}

// The session of a neighbour that is settled anew ends, the next has its routes in their order, and then the neighbour
// goes.
fn comes_again(
    rt: &HostRuntime,
    peer: &mut Peer,
    first: &Key,
    file: &[StaticRoute],
) -> Result<(), Fail> {
    peer.up();
    announce(rt.alloc(), &mut peer.slot, first, FIRST)?;
    resettle(rt, &mut peer.slot, settings(EIGHTH), file)?;
    expect(
        peer.cut() == Cut::Reset(Code::new(6, 6)),
        "the session ends",
    )?;
    peer.up();
    expect(
        peer.sends(&[TWO, ROUTE, END]),
        "what stood first, with the new address",
    )?;
    vacate(rt, &mut peer.slot, settings(NINTH).side())?;
    expect(
        peer.cut() == Cut::Reset(Code::new(6, 3)),
        "the session ends again",
    )?;
    peer.slot.down();
    expect(peer.cut() == Cut::NoSession, "no session stands")
}

#[test]
fn other_settings_leave_routes_in_their_order(rt: HostRuntime) -> Result<(), Fail> {
    let (first, second, third) = (net(0)?, net(1)?, net(2)?);
    let old = statics(rt.alloc(), &[second], Hop::Own)?;
    let new = statics(rt.alloc(), &[third, second], Hop::Own)?;
    let mut peer = neighbour(&rt, settings(NINTH), &old)?;
    comes_again(&rt, &mut peer, &first, &new)
}

// The routes of a long file are nodes, are sent in messages that hold as many as fit, and are taken out.
fn is_cleared(
    alloc: Global,
    peer: &mut Peer,
    keys: &[Key],
    file: &[StaticRoute],
) -> Result<(), Fail> {
    peer.up();
    expect(
        peer.slot.adds(keys) == usize::from(MANY),
        "none of them is a node",
    )?;
    expect(reload(alloc, &mut peer.slot, file)?, "the nodes")?;
    expect(
        peer.slot.nodes() == usize::from(MANY),
        "each of them is a node",
    )?;
    expect(peer.slot.adds(keys) == 0, "and adds none")?;
    // 1,013 routes behind 43 bytes, the other 11, and the marker.
    expect(
        peer.sends_lens(&[43 + 4 * 1_013, 43 + 4 * 11, 23]),
        "the routes",
    )?;
    peer.slot.clear();
    // 1,018 withdrawals behind 23 bytes, and the other 6.
    expect(
        peer.sends_lens(&[23 + 4 * 1_018, 23 + 4 * 6]),
        "their withdrawal",
    )
}

#[test]
fn a_long_file_is_sent_and_taken_out_again(rt: HostRuntime) -> Result<(), Fail> {
    let keys = many(rt.alloc())?;
    let file = statics(rt.alloc(), &keys, Hop::Is(Addr::V4(FIRST)))?;
    let mut peer = neighbour(&rt, settings(NINTH), &[])?;
    is_cleared(rt.alloc(), &mut peer, &keys, &file)
}
