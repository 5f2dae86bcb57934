//! Long bodies, up to the longest that a length of two bytes could stand for.
use super::*;
use update_grammar::UpdateFault;

const LONGEST: usize = 65535;

// What stands before the prefixes where there are no attributes.
const BARE: &[u8] = &[
    0x00, 0x00, // no withdrawn prefixes
    0x00, 0x00, // no attributes
];

// What stands before them where there are those that they need.
const COMPLETE: &[u8] = &[
    0x00, 0x00, // no withdrawn prefixes
    0x00, 0x14, // length of the attributes
    0x40, 0x01, 0x01, 0x00, // ORIGIN IGP
    0x40, 0x02, 0x06, 0x02, 0x01, 0x00, 0x00, 0xFD, 0xE9, // AS_PATH 65001
    0x40, 0x03, 0x04, 0xC0, 0x00, 0x02, 0x01, // NEXT_HOP 192.0.2.1
];

const COMMUNITIES: usize = 1100;

// What stands before so many communities where both fields announce something.
const BEFORE_COMMUNITIES: &[u8] = &[
    0x00, 0x00, // no withdrawn prefixes
    0x11, 0x65, // length of the attributes
    0x40, 0x01, 0x01, 0x00, // ORIGIN IGP
    0x40, 0x02, 0x06, 0x02, 0x01, 0x00, 0x00, 0xFD, 0xE9, // AS_PATH 65001
    0x40, 0x03, 0x04, 0xC0, 0x00, 0x02, 0x01, // NEXT_HOP 192.0.2.1
    0x80, 0x0E, 0x1A, // MP_REACH_NLRI
    0x00, 0x02, 0x01, // IPv6 unicast
    0x10, // length of the next hop
    0x20, 0x01, 0x0D, 0xB8, 0x00, 0x00, 0x00, 0x00, //
    0x00, 0x00, 0x00, 0x00, 0x00, 0x00, 0x00, 0x09, // 2001:db8::9
    0x00, // reserved
    0x20, 0x20, 0x01, 0x0D, 0xB8, // 2001:db8::/32
    0xD0, 0x08, 0x11, 0x30, // COMMUNITIES
];

// A body that is filled up with zeros. In a field of prefixes each is one prefix.
fn filled(alloc: Global, front: &[u8], len: usize) -> Result<Vec<u8>, NoMemory> {
    let mut body = Vec::from_slice(alloc, front)?;
    body.resize(len, 0)?;
    Ok(body)
}

#[test]
fn prefixes_of_one_byte_each_without_attributes_miss_the_first(
    rt: HostRuntime,
) -> Result<(), Fail> {
    let body = filled(rt.alloc(), BARE, LONGEST)?;
    assert_eq!(rt;
        read_update(rt.alloc(), &body, &Carried::Both.caps()).err(),
        Some(UpdateFault::MissingAttr(1))
    );
    Ok(())
}

#[test]
fn each_of_65511_prefixes_is_announced(rt: HostRuntime) -> Result<(), Fail> {
    let body = filled(rt.alloc(), COMPLETE, LONGEST)?;
    let effects = read_update(rt.alloc(), &body, &Carried::Both.caps())?;
    let parts = effects.parts();
    assert_eq!(rt; parts.gone.len(), 0);
    let [announced] = parts.here else {
        return Err("one list of keys".into());
    };
    assert_eq!(rt; announced.keys.len(), LONGEST - COMPLETE.len());
    Ok(())
}

#[test]
fn both_announcements_of_a_body_have_all_of_1100_communities(rt: HostRuntime) -> Result<(), Fail> {
    let len = BEFORE_COMMUNITIES.len() + 4 * COMMUNITIES + 1;
    let body = filled(rt.alloc(), BEFORE_COMMUNITIES, len)?;
    let effects = read_update(rt.alloc(), &body, &Carried::Both.caps())?;
    let [first, second] = effects.parts().here else {
        return Err("two lists of keys".into());
    };
    for (announced, hop) in [(first, IPV6_HOP), (second, IPV4_HOP)] {
        assert_eq!(rt; announced.attrs.hop, hop);
        assert_eq!(rt; announced.keys.len(), 1);
        assert_eq!(rt; announced.attrs.communities.len(), COMMUNITIES);
    }
    Ok(())
}
