//! Replies that wait, and how they are written.
use crate::{AckQueue, MAX_QUEUED, MAX_REPLY_TEXT, MAX_TAKEN, Reply, Shown, put_reply};
use arrayvec::ArrayVec;
use route_values::{Addr, Key, Prefix};
use std::test::Fail;

// A route of a neighbour.
struct Route {
    peer: Addr,
    prefix: (Addr, u8),
    id: u32,
    hop: Addr,
    fixed: bool,
}

const ROUTES: [(Route, &str); 4] = [
    (
        Route {
            peer: Addr::V4(0xc000_0202),
            prefix: (Addr::V4(0x0a00_0000), 24),
            id: 0,
            hop: Addr::V4(0xc000_0201),
            fixed: false,
        },
        "neighbor 192.0.2.2 route 10.0.0.0/24 next-hop 192.0.2.1 helper\n",
    ),
    (
        Route {
            peer: Addr::V4(0xc000_0202),
            prefix: (Addr::V4(0x0a00_0000), 24),
            id: 7,
            hop: Addr::V4(0xc000_0201),
            fixed: true,
        },
        "neighbor 192.0.2.2 route 10.0.0.0/24 path-information 7 next-hop 192.0.2.1 static\n",
    ),
    (
        Route {
            peer: Addr::V4(0xc000_0202),
            prefix: (Addr::V6(0x2001_0db8_0000_0000_0000_0000_0000_0000), 32),
            id: 0,
            hop: Addr::V6(0x2001_0db8_0000_0000_0000_0000_0000_0001),
            fixed: true,
        },
        "neighbor 192.0.2.2 route 2001:db8:0:0:0:0:0:0/32 next-hop 2001:db8:0:0:0:0:0:1 static\n",
    ),
    (
        Route {
            peer: Addr::V6(0xffff_ffff_ffff_ffff_ffff_ffff_ffff_fff0),
            prefix: (Addr::V6(0xffff_ffff_ffff_ffff_ffff_ffff_ffff_ffff), 128),
            id: u32::MAX,
            hop: Addr::V6(0xffff_ffff_ffff_ffff_ffff_ffff_ffff_fff1),
            fixed: false,
        },
        "neighbor ffff:ffff:ffff:ffff:ffff:ffff:ffff:fff0 \
         route ffff:ffff:ffff:ffff:ffff:ffff:ffff:ffff/128 path-information 4294967295 \
         next-hop ffff:ffff:ffff:ffff:ffff:ffff:ffff:fff1 helper\n",
    ),
];

#[test]
fn a_route_is_shown_with_its_neighbour_its_next_hop_and_its_owner(
    rt: HostRuntime,
) -> Result<(), Fail> {
    let mut out = ArrayVec::new();
    for (route, text) in &ROUTES {
        let (addr, len) = route.prefix;
        let prefix = Prefix::new(addr, len).ok_or("no prefix")?;
        let shown = Shown {
            peer: route.peer,
            key: Key {
                prefix,
                id: route.id,
            },
            hop: route.hop,
            fixed: route.fixed,
        };
        put_reply(&Reply::Route(shown), &mut out);
        assert_eq!(rt; out.as_slice(), text.as_bytes(), "{text}");
    }
    // The last of them is the longest text that there is.
    assert_eq!(rt; out.len(), MAX_REPLY_TEXT);
    Ok(())
}

#[test]
fn the_other_replies_are_one_word_or_two(rt: HostRuntime) {
    let mut out = ArrayVec::new();
    for (reply, text) in [
        (Reply::NoMemory, "error memory\n"),
        (Reply::Error, "error\n"),
        (Reply::Done, "done\n"),
    ] {
        put_reply(&reply, &mut out);
        assert_eq!(rt; out.as_slice(), text.as_bytes());
    }
}

#[test]
fn a_full_queue_takes_replies_again_once_some_are_taken(rt: HostRuntime) -> Result<(), Fail> {
    let mut queue = AckQueue::new(rt.alloc())?;
    assert!(rt; queue.put(Reply::Error));
    for _ in 1..MAX_QUEUED {
        assert!(rt; queue.put(Reply::Done));
    }
    assert!(rt; !queue.put(Reply::NoMemory));
    assert_eq!(rt; queue.len(), 1_024);
    let taken = queue.take();
    assert_eq!(rt; taken.len(), 64);
    assert!(rt; taken.as_slice()[0] == Reply::Error);
    assert_eq!(rt; queue.len(), 960);
    assert!(rt; queue.put(Reply::NoMemory));
    queue.clear();
    assert_eq!(rt; queue.take().len(), 0);
    Ok(())
}

#[test]
fn replies_are_taken_in_the_order_in_which_they_were_put(rt: HostRuntime) -> Result<(), Fail> {
    let mut queue = AckQueue::new(rt.alloc())?;
    // Over and over, so that they go round the end of the block.
    for _ in 0..MAX_QUEUED {
        assert!(rt; queue.put(Reply::Done));
        assert!(rt; queue.put(Reply::Error));
        assert!(rt; queue.put(Reply::NoMemory));
        let taken = queue.take();
        assert!(rt; taken.len() < MAX_TAKEN);
        assert!(rt; taken.as_slice() == [Reply::Done, Reply::Error, Reply::NoMemory].as_slice());
    }
    Ok(())
}
