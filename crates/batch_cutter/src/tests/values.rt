//! Values that messages are made of.
ghost use Rattle.std.specs.Prelude.{◌≡◌, ◌<◌, ◌≤◌, [], ◌∷◌, false, IfOk};
ghost use Rattle.route_values.specs.declared.addr.Family.TheVariants.{Ipv4, Ipv6};
ghost use Rattle.route_values.specs.Key.{family_of_key};
ghost use Rattle.batch_cutter.specs.Heads.{IsRoute};
ghost use Rattle.batch_cutter.specs.Plain.{AreIpv4};

use route_values::{Addr, AsPath, Items, Key, NoMemory, Origin, Prefix, Segment, WireAttrs};
use std::alloc::Global;
use std::test::Fail;

// The next hop 192.0.2.1.
const IPV4_HOP: Addr = Addr::V4(0xC000_0201);

// The next hop 2001:db8::1.
const IPV6_HOP: Addr = Addr::V6(0x2001_0DB8_0000_0000_0000_0000_0000_0001);

/// The origin IGP, the path 65001, and the next hop 192.0.2.1.
pub fn ipv4_route(alloc: Global) -> Result<WireAttrs, NoMemory>
    ensures { IfOk result (λ w. IsRoute Ipv4 w) }
{
    Ok(WireAttrs::new(alloc, IPV4_HOP, Origin::Igp, path(alloc)?))
}

/// The same with the next hop 2001:db8::1.
pub fn ipv6_route(alloc: Global) -> Result<WireAttrs, NoMemory>
    ensures { IfOk result (λ w. IsRoute Ipv6 w) }
{
    Ok(WireAttrs::new(alloc, IPV6_HOP, Origin::Igp, path(alloc)?))
}

fn path(alloc: Global) -> Result<AsPath, NoMemory>
    ensures { IfOk result (λ path.
        path ≡ record { set = false; numbers = 65001 ∷ [] } ∷ []) }
{
    let numbers = Items::from_vec(vec![in alloc; 65001]?);
    let only = Segment {
        set: false,
        numbers,
    };
    Ok(AsPath::from_segments(vec![in alloc; only]?))
}

/// 10.0.0.0/24, or one of those that follow.
pub fn net(number: u16) -> Result<Key, Fail>
    ensures { IfOk result (λ key. family_of_key key ≡ Ipv4) }
{
    let prefix = Prefix::new(Addr::V4(0x0A00_0000 + u32::from(number) * 256), 24).ok_or(
        "a prefix",
    )?;
    Ok(Key { prefix, id: 0 })
}

/// 2001:db8::/32.
pub fn ipv6_net() -> Result<Key, Fail>
    ensures { IfOk result (λ key. family_of_key key ≡ Ipv6) }
{
    let prefix = Prefix::new(Addr::V6(0x2001_0DB8 << 96), 32).ok_or("a prefix")?;
    Ok(Key { prefix, id: 0 })
}

/// So many of them, from 10.0.0.0/24 on.
pub fn nets(alloc: Global, count: u16) -> Result<Vec<Key>, Fail>
    ensures { IfOk result (λ keys. AreIpv4 keys.items) }
{
    let mut keys = Vec::new(alloc);
    'numbers: for number in 0..count {
        let key = net(number)?;
        keys.push(key)?;
    }
    Ok(keys)
}
