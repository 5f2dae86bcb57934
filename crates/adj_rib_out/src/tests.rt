//! What no clause says: that the calls find memory and how much, that a million of them are answered as a plain list
//! does, and how messages are filled from the table.

ghost use Rattle.std.specs.Prelude.{◌≡◌, not};
ghost use Rattle.adj_rib_out.specs.Calls.{is_open};

mod drill;
mod messages;
mod plain;
mod size;

use crate::{Due, Owner, Rib};
use route_values::{Addr, Attrs, Key, NoMemory, Prefix, Side};
use std::test::Fail;

// A session between two AS numbers: so LOCAL_PREF isn't sent.
const SIDE: Side = Side {
    local: Addr::V4(0xC000_0201),
    local_as: 65_001,
    peer_as: 65_002,
};

// The prefix of 24 bits of this number, from 10.0.0.0/24 on: there are 2^20 of them.
fn net(number: usize) -> Result<Key, Fail> {
    let addr = (number % 0x10_0000) as u32 * 256 + 0x0A00_0000;
    let prefix = Prefix::new(Addr::V4(addr), 24).ok_or("a prefix")?;
    Ok(Key { prefix, id: 0 })
}

// Gives a key a route.
fn announce(rib: &mut Rib, key: &Key, written: &Attrs, owner: Owner) -> Result<(), NoMemory> {
    let number = rib.ready(&[*key], written)?;
    rib.set(key, number, owner);
    Ok(())
}

// Whether no batch is open.
fn is_through(rib: &Rib) -> bool
    ensures { result ≡ not (is_open rib.now) }
{
    matches!(rib.due(), Due::Empty)
}
