//! Messages that are written from values and read as the same values.
use super::opened::withdraw;
use super::values::{IPV4_NET, Net, effects, keys};
use super::vectors::{
    FULL_IDENTIFIED, FULL_IPV4, LONG_PATH, ONE_PREFIX, REACHED, REACHED_BETWEEN,
    REACHED_IDENTIFIED, THREE_IDENTIFIED, WITHDRAWN_IDENTIFIED_IPV4, WITHDRAWN_IDENTIFIED_IPV6,
    WITHDRAWN_IPV4, WITHDRAWN_IPV6,
};
use super::*;

// What a message does with its keys.
#[derive(Clone, Copy)]
enum Head {
    // Announces them with these attributes and this next hop.
    Here(Said, Addr),
    // Withdraws them.
    Gone(Family),
    // Is the marker of a family, and has none.
    End(Family),
}

struct Row {
    shows: &'static str,
    message: &'static [u8],
    carried: Carried,
    head: Head,
    nets: &'static [Net],
}

const IPV4_SEVENTH: Net = (Addr::V4(0x0A00_0000), 24, 7);

const IPV4_EIGHTH: Net = (Addr::V4(0x0A00_0000), 24, 8);

const IPV4_ALL: Net = (Addr::V4(0), 0, 0);

const THREE_NETS: &[Net] = &[
    (Addr::V4(0xC633_6407), 32, 7),
    IPV4_ALL,
    (Addr::V4(0xCB00_7180), 25, 0x0102_0304),
];

const IPV6_SEVENTH: Net = (Addr::V6(0x2001_0DB8 << 96), 32, 7);

const IPV6_WHOLE: Net = (IPV6_HOP, 128, u32::MAX);

const MESSAGES: &[Row] = &[
    Row {
        shows: "an announcement of one prefix of IPv4",
        message: ONE_PREFIX,
        carried: Carried::Both,
        head: Head::Here(Said::Least, IPV4_HOP),
        nets: &[IPV4_NET],
    },
    Row {
        shows: "several prefixes with identifiers",
        message: THREE_IDENTIFIED,
        carried: Carried::Identified,
        head: Head::Here(Said::Least, IPV4_HOP),
        nets: THREE_NETS,
    },
    Row {
        shows: "an attribute of more than 255 bytes",
        message: LONG_PATH,
        carried: Carried::Both,
        head: Head::Here(Said::Long, IPV4_HOP),
        nets: &[IPV4_NET],
    },
    Row {
        shows: "all attributes of a prefix of IPv4",
        message: FULL_IPV4,
        carried: Carried::Both,
        head: Head::Here(Said::Full, IPV4_HOP),
        nets: &[IPV4_NET],
    },
    Row {
        shows: "all attributes of a prefix of IPv4 with an identifier",
        message: FULL_IDENTIFIED,
        carried: Carried::Identified,
        head: Head::Here(Said::Full, IPV4_HOP),
        nets: &[IPV4_SEVENTH],
    },
    Row {
        shows: "an announcement of one prefix of IPv6",
        message: REACHED,
        carried: Carried::Both,
        head: Head::Here(Said::Least, IPV6_HOP),
        nets: &[IPV6_NET],
    },
    Row {
        shows: "attributes on both sides of a prefix of IPv6",
        message: REACHED_BETWEEN,
        carried: Carried::Both,
        head: Head::Here(Said::Full, IPV6_HOP),
        nets: &[IPV6_NET],
    },
    Row {
        shows: "attributes on both sides of a prefix of IPv6 with an identifier",
        message: REACHED_IDENTIFIED,
        carried: Carried::Identified,
        head: Head::Here(Said::Full, IPV6_HOP),
        nets: &[IPV6_SEVENTH],
    },
    Row {
        shows: "a withdrawal of a prefix of IPv4",
        message: WITHDRAWN_IPV4,
        carried: Carried::Both,
        head: Head::Gone(Family::Ipv4),
        nets: &[IPV4_NET],
    },
    Row {
        shows: "a withdrawal of prefixes of IPv4 with identifiers",
        message: WITHDRAWN_IDENTIFIED_IPV4,
        carried: Carried::Identified,
        head: Head::Gone(Family::Ipv4),
        nets: &[IPV4_SEVENTH, IPV4_EIGHTH, IPV4_ALL],
    },
    Row {
        shows: "a withdrawal of a prefix of IPv6",
        message: WITHDRAWN_IPV6,
        carried: Carried::Both,
        head: Head::Gone(Family::Ipv6),
        nets: &[IPV6_NET],
    },
    Row {
        shows: "a withdrawal of prefixes of IPv6 with identifiers",
        message: WITHDRAWN_IDENTIFIED_IPV6,
        carried: Carried::Identified,
        head: Head::Gone(Family::Ipv6),
        nets: &[IPV6_SEVENTH, IPV6_WHOLE],
    },
    Row {
        shows: "the marker of IPv4",
        message: IPV4_MARKER,
        carried: Carried::Both,
        head: Head::End(Family::Ipv4),
        nets: &[],
    },
    Row {
        shows: "the marker of IPv6",
        message: IPV6_MARKER,
        carried: Carried::Both,
        head: Head::End(Family::Ipv6),
        nets: &[],
    },
];

// Writes a message; all of its keys fit.
fn written(alloc: Global, row: &Row) -> Result<Message, Fail> {
    let keys = keys(alloc, row.nets)?;
    let mut out = Message::new(alloc, 4096)?;
    let whole = match row.head {
        Head::Here(said, hop) => {
            let attrs = attrs(alloc, said, hop)?;
            announce(
                &mut out,
                &attrs,
                hop.family(),
                &row.carried.caps(),
                keys.as_slice(),
            ) == keys.len()
        }
        Head::Gone(family) => withdraw(&mut out, family, &row.carried.caps(), keys.as_slice())
            == keys.len(),
        Head::End(family) => put_end_of_rib(&mut out, family),
    };
    if !whole {
        return Err("a key does not fit".into());
    }
    Ok(out)
}

// The effects of a message.
fn wanted(alloc: Global, row: &Row) -> Result<Effects, Fail> {
    match row.head {
        Head::Here(said, hop) => effects(alloc, &[], &[(said, hop, row.nets)]),
        Head::Gone(_) => effects(alloc, row.nets, &[]),
        Head::End(_) => effects(alloc, &[], &[]),
    }
}

// How many bytes the header of a message has (RFC 4271, section 4.1).
const HEADER_LEN: usize = 19;

#[test]
fn messages_are_written_and_read_as_their_values(rt: HostRuntime) -> Result<(), Fail> {
    let alloc = rt.alloc();
    for row in MESSAGES {
        let out = written(alloc, row)?;
        assert_eq!(rt; out.bytes(), row.message, "{}", row.shows);
        let body = row.message.get(HEADER_LEN..).ok_or("a header")?;
        let found = read_update(alloc, body, &row.carried.caps())?;
        let found = format!(in alloc; "{found:?}")?;
        let wanted = format!(in alloc; "{:?}", wanted(alloc, row)?)?;
        assert_eq!(rt; found.as_str(), wanted.as_str(), "{}", row.shows);
    }
    Ok(())
}
