use super::*;
use std::alloc::Global;
use std::mem::size_of;
use std::test::Fail;

// The own AS, and that of a neighbour.
const OWN: u32 = 65001;

const OTHER: u32 = 65002;

// 192.0.2.9 and 192.0.2.1.
const LOCAL: Addr = Addr::V4(0xC000_0209);

const HOP: Addr = Addr::V4(0xC000_0201);

// IPv4 alone, without path identifiers or with them.
fn ipv4_alone(path: bool) -> Caps {
    Caps::none().with(Family::Ipv4, path)
}

// A value that a call has found memory for.
fn found<T: Drop>(answer: Result<T, NoMemory>) -> Result<T, Fail> {
    match answer {
        Ok(value) => Ok(value),
        Err(NoMemory) => Err(Fail::from("no memory")),
    }
}

fn side(peer_as: u32) -> Side {
    Side {
        local: LOCAL,
        local_as: OWN,
        peer_as,
    }
}

// The numbers below `count`.
fn numbers(alloc: Global, count: u32) -> Result<U32s, NoMemory> {
    let mut numbers = Items::new(alloc);
    'numbers: for number in 0..count {
        numbers.push(number)?;
    }
    Ok(numbers)
}

// A path of so many sequences, each of the own AS alone.
fn path(alloc: Global, count: usize) -> Result<AsPath, NoMemory> {
    let mut segments = Vec::new(alloc);
    'segments: for _ in 0..count {
        let numbers = Items::from_vec(vec![in alloc; OWN]?);
        segments.push(Segment {
            set: false,
            numbers,
        })?;
    }
    Ok(AsPath::from_segments(segments))
}

// Attributes with lists of these lengths.
fn attrs_of(alloc: Global, counts: &Counts) -> Result<Attrs, NoMemory> {
    let mut attrs = Attrs::new(alloc, Hop::Is(HOP));
    attrs.path = Some(path(alloc, counts.path)?);
    attrs.communities = numbers(alloc, counts.communities)?;
    attrs.clusters = numbers(alloc, counts.clusters)?;
    attrs.extended = Items::from_vec(vec![in alloc; [1; 8]; counts.extended]?);
    let large = Large {
        global: OWN,
        first: 1,
        second: 2,
    };
    attrs.large = Items::from_vec(vec![in alloc; large; counts.large]?);
    Ok(attrs)
}

// How many values each list has.
#[derive(Clone, Copy)]
struct Counts {
    path: usize,
    communities: u32,
    clusters: u32,
    extended: usize,
    large: usize,
}

const LIMITS: Counts = Counts {
    path: 255,
    communities: 200,
    clusters: 32,
    extended: 64,
    large: 64,
};

// Attributes of which the next hop is written, and a community twice.
fn written(alloc: Global, hop: Hop) -> Result<Attrs, NoMemory> {
    let mut attrs = Attrs::new(alloc, hop);
    attrs.communities = Items::from_vec(vec![in alloc; 7, 9, 7]?);
    Ok(attrs)
}

fn settings() -> Settings {
    Settings {
        peer: Addr::V4(0xC000_0202),
        local: LOCAL,
        port: 179,
        local_as: OWN,
        peer_as: OTHER,
        router_id: 0xC000_0209,
        hold: 180,
        ipv4: true,
        ipv6: true,
        ipv4_send: false,
        ipv6_send: false,
        ipv4_receive: false,
        ipv6_receive: false,
        refresh: true,
        extended: false,
    }
}

fn key(addr: Addr, len: u8, id: u32) -> Result<Key, Fail> {
    match Prefix::new(addr, len) {
        Some(prefix) => Ok(Key { prefix, id }),
        None => Err(Fail::from("no prefix")),
    }
}

#[test]
fn a_prefix_has_no_bit_past_its_length(rt: HostRuntime) {
    let table = [
        ("10.0.0.0/24", Addr::V4(0x0A00_0000), 24, true),
        ("10.0.0.1/24", Addr::V4(0x0A00_0001), 24, false),
        ("10.0.0.1/32", Addr::V4(0x0A00_0001), 32, true),
        ("0.0.0.0/0", Addr::V4(0), 0, true),
        ("10.0.0.0/33", Addr::V4(0x0A00_0000), 33, false),
        ("2001:db8::/32", Addr::V6(0x2001_0DB8 << 96), 32, true),
        ("2001:db8::/31", Addr::V6(0x2001_0DB8 << 96), 31, true),
        ("2001:db8::/28", Addr::V6(0x2001_0DB8 << 96), 28, false),
        ("::/129", Addr::V6(0), 129, false),
    ];
    'cases: for (case, addr, len, wanted) in table {
        assert_eq!(rt;
            Prefix::new(addr, len).map(|p| p.addr()),
            wanted.then_some(addr),
            "{case}"
        );
    }
}

#[test]
fn a_key_has_24_bytes(rt: HostRuntime) {
    assert_eq!(rt; size_of::<Key>(), 24);
}

#[test]
fn keys_stand_by_family_address_length_and_identifier(rt: HostRuntime) -> Result<(), Fail> {
    let table = [
        (Addr::V4(0), 0, 9),
        (Addr::V4(0x0000_00FF), 32, 0),
        (Addr::V4(0x0A00_0000), 8, 0),
        (Addr::V4(0x0A00_0000), 8, 1),
        (Addr::V4(0x0A00_0000), 24, 0),
        (Addr::V4(0xC000_0200), 24, 0),
        (Addr::V6(0), 0, 0),
        (Addr::V6(0x2001_0DB8 << 96), 32, 0),
    ];
    let mut before = key(Addr::V4(0), 0, 0)?;
    'keys: for (addr, len, id) in table {
        let after = key(addr, len, id)?;
        assert!(rt; before < after, "{addr:?}/{len}");
        before = after;
    }
    keys_are_ordered();
    assert_eq!(rt; before.prefix.len(), 32);
    Ok(())
}

#[test]
fn an_external_neighbour_is_sent_the_own_as(rt: HostRuntime) -> Result<(), Fail> {
    let attrs = found(written(rt.alloc(), Hop::Is(HOP)))?;
    let sent = found(wire(rt.alloc(), &attrs, &side(OTHER)))?;
    assert_eq!(rt; sent.hop, HOP);
    assert_eq!(rt; sent.origin, Origin::Igp);
    assert_eq!(rt; sent.path.segments().len(), 1);
    'segments: for segment in sent.path.segments() {
        assert!(rt; !segment.set);
        assert_eq!(rt; segment.numbers.as_slice(), [OWN].as_slice());
    }
    assert_eq!(rt; sent.local_pref, None);
    assert_eq!(rt; sent.communities.as_slice(), [7, 9].as_slice());
    Ok(())
}

#[test]
fn an_internal_neighbour_is_sent_a_preference(rt: HostRuntime) -> Result<(), Fail> {
    let attrs = found(written(rt.alloc(), Hop::Own))?;
    let sent = found(wire(rt.alloc(), &attrs, &side(OWN)))?;
    assert_eq!(rt; sent.hop, LOCAL);
    assert_eq!(rt; sent.path.segments().len(), 0);
    assert_eq!(rt; sent.local_pref, Some(100));
    assert_eq!(rt; settings().side(), side(OTHER));
    Ok(())
}

#[test]
fn small_lists_find_memory(rt: HostRuntime) -> Result<(), Fail> {
    let attrs = found(written(rt.alloc(), Hop::Is(HOP)))?;
    let copied = found(attrs.copy(rt.alloc()))?;
    assert_eq!(rt; copied.communities.as_slice(), [7, 9, 7].as_slice());
    let plain = WireAttrs::new(rt.alloc(), HOP, Origin::Egp, found(path(rt.alloc(), 1))?);
    let again = found(plain.copy(rt.alloc()))?;
    assert_eq!(rt; again.origin, Origin::Egp);
    assert_eq!(rt; again.path.segments().len(), 1);
    Ok(())
}

#[test]
fn long_lists_find_memory(rt: HostRuntime) -> Result<(), Fail> {
    let counts = Counts {
        path: 5_000,
        communities: 5_000,
        clusters: 5_000,
        extended: 5_000,
        large: 5_000,
    };
    let attrs = found(attrs_of(rt.alloc(), &counts))?;
    let copied = found(attrs.copy(rt.alloc()))?;
    assert_eq!(rt; copied.communities.as_slice(), attrs.communities.as_slice());
    assert_eq!(rt; copied.clusters.into_vec().len(), 5_000);
    Ok(())
}

#[test]
fn attributes_at_their_limits_are_sent(rt: HostRuntime) -> Result<(), Fail> {
    let attrs = found(attrs_of(rt.alloc(), &LIMITS))?;
    let sent = found(wire(rt.alloc(), &attrs, &side(OTHER)))?;
    let copied = found(sent.copy(rt.alloc()))?;
    assert_eq!(rt; copied.path.segments().len(), 255);
    assert_eq!(rt; copied.communities.len(), 200);
    assert_eq!(rt; copied.extended.len(), 1);
    Ok(())
}

#[test]
fn attributes_are_within_their_limits_up_to_each_limit(rt: HostRuntime) -> Result<(), Fail> {
    let table = [
        ("each limit", LIMITS, true),
        (
            "a path of 256 numbers",
            Counts {
                path: 256,
                ..LIMITS
            },
            false,
        ),
        (
            "201 communities",
            Counts {
                communities: 201,
                ..LIMITS
            },
            false,
        ),
        (
            "33 clusters",
            Counts {
                clusters: 33,
                ..LIMITS
            },
            false,
        ),
        (
            "65 extended communities",
            Counts {
                extended: 65,
                ..LIMITS
            },
            false,
        ),
        (
            "65 large communities",
            Counts {
                large: 65,
                ..LIMITS
            },
            false,
        ),
    ];
    'cases: for (case, counts, wanted) in table {
        let attrs = found(attrs_of(rt.alloc(), &counts))?;
        assert_eq!(rt; attrs.is_within_limits(), wanted, "{case}");
    }
    assert!(rt; Attrs::new(rt.alloc(), Hop::Own).is_within_limits());
    Ok(())
}

#[test]
fn a_session_carries_its_families_and_identifiers_where_it_has_them(
    rt: HostRuntime,
) -> Result<(), Fail> {
    let key = key(Addr::V4(0x0A00_0000), 24, 7)?;
    assert!(rt; !visible(&key, &Caps::none()));
    assert!(rt; !visible(&key, &ipv4_alone(false)));
    assert!(rt; visible(&key, &ipv4_alone(true)));
    assert!(rt; visible(&Key { id: 0, ..key }, &ipv4_alone(false)));
    assert!(rt; ipv4_alone(true).with_extended().extended());
    assert!(rt; key.is_same(&key));
    assert_eq!(rt; key.family(), Family::Ipv4);
    Ok(())
}

#[test]
fn a_selector_means_the_neighbours_that_one_of_its_picks_matches(
    rt: HostRuntime,
) -> Result<(), Fail> {
    let pick = Pick {
        peer: Addr::V4(0xC000_0202),
        local: Some(LOCAL),
        local_as: None,
        peer_as: Some(OTHER),
        router_id: None,
    };
    let other = Pick {
        peer_as: Some(OWN),
        ..pick
    };
    let mut selector = Items::new(rt.alloc());
    assert!(rt; is_picked(&selector, &settings()), "the empty selector");
    found(selector.push(other))?;
    assert!(rt; !is_picked(&selector, &settings()), "another AS");
    found(selector.push(pick))?;
    assert!(rt; is_picked(&selector, &settings()), "the second pick");
    Ok(())
}
