//! Values of messages, made by hand.
ghost use Rattle.std.specs.Prelude.{◌≡◌, ◌<◌, ◌≤◌, All, IfOk, length};
ghost use Rattle.route_values.specs.Path.{AllFilled};
ghost use Rattle.attr_codec.specs.Sizes.{IsShort};

use super::*;

pub const IPV4_HOP: Addr = Addr::V4(0xC000_0201);

pub const IPV6_HOP: Addr = Addr::V6(0x2001_0DB8_0000_0000_0000_0000_0000_0009);

/// What a session carries.
#[derive(Clone, Copy)]
pub enum Carried {
    /// Both families.
    Both,
    /// Both families, with path identifiers.
    Identified,
    /// IPv4 alone.
    Ipv4Alone,
}

impl Carried {
    pub fn caps(self) -> Caps {
        let none = Caps::none();
        match self {
            Carried::Both => none.with(Family::Ipv4, false).with(Family::Ipv6, false),
            Carried::Identified => none.with(Family::Ipv4, true).with(Family::Ipv6, true),
            Carried::Ipv4Alone => none.with(Family::Ipv4, false),
        }
    }
}

/// Address, bits and identifier of a key.
pub type Net = (Addr, u8, u32);

/// 10.0.0.0/24.
pub const IPV4_NET: Net = (Addr::V4(0x0A00_0000), 24, 0);

/// 2001:db8::/32.
pub const IPV6_NET: Net = (Addr::V6(0x2001_0DB8 << 96), 32, 0);

/// What the attributes of an announcement say beside its next hop.
#[derive(Clone, Copy)]
pub enum Said {
    /// The origin IGP and a path of one AS.
    Least,
    /// The same, and ATOMIC_AGGREGATE.
    Atomic,
    /// The same as the first with a path of 64 AS numbers.
    Long,
    /// All attributes.
    Full,
}

/// What attributes say, their next hop, and the keys that are announced with them.
pub type News = (Said, Addr, &'static [Net]);

/// The effects that withdraw these keys and then announce those.
pub fn effects(alloc: Global, gone: &[Net], here: &[News]) -> Result<Effects, Fail> {
    let mut announced = Vec::new(alloc);
    for (said, hop, nets) in here {
        let attrs = attrs(alloc, *said, *hop)?;
        let keys = keys(alloc, nets)?;
        announced.push(Announced { attrs, keys })?;
    }
    Ok(Effects::new(keys(alloc, gone)?, announced))
}

pub fn keys(alloc: Global, nets: &[Net]) -> Result<Keys, Fail> {
    let mut all = Vec::new(alloc);
    for net in nets {
        all.push(key(*net)?)?;
    }
    Ok(Items::from_vec(all))
}

pub fn key(net: Net) -> Result<Key, Fail> {
    let (addr, len, id) = net;
    let prefix = Prefix::new(addr, len).ok_or("a prefix")?;
    Ok(Key { prefix, id })
}

pub fn attrs(alloc: Global, said: Said, hop: Addr) -> Result<WireAttrs, NoMemory>
    ensures hop { IfOk result (λ w. w.hop ≡ hop) }
    ensures short { IfOk result (λ w. All IsShort w.path) }
{
    match said {
        Said::Least => least(alloc, hop, &[65001]),
        Said::Atomic => atomic(alloc, hop),
        Said::Long => least(alloc, hop, &[65001; 64]),
        Said::Full => full(alloc, hop),
    }
}

fn least(alloc: Global, hop: Addr, numbers: &[u32]) -> Result<WireAttrs, NoMemory>
    requires filled { 0 < length numbers.now }
    requires short { length numbers.now ≤ 255 }
    ensures hop { IfOk result (λ w. w.hop ≡ hop) }
    ensures short { IfOk result (λ w. All IsShort w.path) }
{
    let path = sequence(alloc, numbers)?;
    Ok(WireAttrs::new(alloc, hop, Origin::Igp, path))
}

fn atomic(alloc: Global, hop: Addr) -> Result<WireAttrs, NoMemory>
    ensures hop { IfOk result (λ w. w.hop ≡ hop) }
    ensures short { IfOk result (λ w. All IsShort w.path) }
{
    let mut attrs = least(alloc, hop, &[65001])?;
    attrs.atomic = true;
    Ok(attrs)
}

fn list(alloc: Global, numbers: &[u32]) -> Result<U32s, NoMemory>
    ensures { IfOk result (λ list. list ≡ numbers.now) }
{
    Ok(Items::from_vec(Vec::from_slice(alloc, numbers)?))
}

fn sequence(alloc: Global, numbers: &[u32]) -> Result<AsPath, NoMemory>
    requires filled { 0 < length numbers.now }
    requires short { length numbers.now ≤ 255 }
    ensures { IfOk result (λ path. All IsShort path) }
{
    let only = Segment {
        set: false,
        numbers: list(alloc, numbers)?,
    };
    Ok(AsPath::from_segments(vec![in alloc; only]?))
}

fn sequence_and_set(alloc: Global) -> Result<AsPath, NoMemory>
    ensures { IfOk result (λ path. All IsShort path) }
{
    let first = Segment {
        set: false,
        numbers: list(alloc, &[65001])?,
    };
    let second = Segment {
        set: true,
        numbers: list(alloc, &[64999, 65002])?,
    };
    Ok(AsPath::from_segments(vec![in alloc; first, second]?))
}

fn full(alloc: Global, hop: Addr) -> Result<WireAttrs, NoMemory>
    ensures hop { IfOk result (λ w. w.hop ≡ hop) }
    ensures short { IfOk result (λ w. All IsShort w.path) }
{
    let extended = [0x00, 0x02, 0xFD, 0xE9, 0x00, 0x00, 0x00, 0x64];
    let large = Large {
        global: 65001,
        first: 1,
        second: 2,
    };
    Ok(WireAttrs {
        hop,
        origin: Origin::Incomplete,
        path: sequence_and_set(alloc)?,
        med: Some(50),
        local_pref: Some(200),
        atomic: true,
        aggregator: Some(Aggregator {
            asn: 65001,
            addr: 0xC000_0209,
        }),
        communities: list(alloc, &[0xFDE9_0001, 0xFFFF_FF01])?,
        originator: Some(0xC000_0203),
        clusters: list(alloc, &[0xC000_0204])?,
        extended: Items::from_vec(vec![in alloc; extended]?),
        large: Items::from_vec(vec![in alloc; large]?),
    })
}

// All limits of a route's attributes at once, where each AS number has a segment of its own.
pub fn longest(alloc: Global, hop: Addr) -> Result<WireAttrs, NoMemory>
    ensures hop { IfOk result (λ w. w.hop ≡ hop) }
    ensures short { IfOk result (λ w. All IsShort w.path) }
{
    let large = Large {
        global: 1,
        first: 1,
        second: 1,
    };
    Ok(WireAttrs {
        hop,
        origin: Origin::Igp,
        path: singles(alloc, 255)?,
        med: Some(1),
        local_pref: Some(1),
        atomic: true,
        aggregator: Some(Aggregator { asn: 1, addr: 1 }),
        communities: Items::from_vec(vec![in alloc; 1; 200]?),
        originator: Some(1),
        clusters: Items::from_vec(vec![in alloc; 1; 32]?),
        extended: Items::from_vec(vec![in alloc; [1; 8]; 64]?),
        large: Items::from_vec(vec![in alloc; large; 64]?),
    })
}

fn singles(alloc: Global, count: usize) -> Result<AsPath, NoMemory>
    ensures { IfOk result (λ path. All IsShort path) }
{
    let mut segments = Vec::new(alloc);
    for _ in 0..count {
        push_single(alloc, &mut segments)?;
    }
    Ok(AsPath::from_segments(segments))
}

fn push_single(alloc: Global, segments: &mut Vec<Segment>) -> Result<(), NoMemory>
    requires short { All IsShort segments.old.items }
    requires filled { AllFilled segments.old.items }
    ensures short { All IsShort segments.new.items }
    ensures filled { AllFilled segments.new.items }
{
    let numbers = list(alloc, &[1])?;
    segments.push(Segment {
        set: false,
        numbers,
    })?;
    Ok(())
}
