use super::failing;
use crate::*;
use route_values::{Addr, Settings};
use std::alloc::Global;
use std::test::Fail;
use std::thread;

// The settings of some neighbour.
fn settings() -> Settings {
    Settings {
        peer: Addr::V4(0xC000_0202),
        local: Addr::V4(0xC000_0209),
        port: 179,
        local_as: 65_001,
        peer_as: 65_002,
        router_id: 1,
        hold: 180,
        ipv4: true,
        ipv6: false,
        ipv4_send: false,
        ipv6_send: false,
        ipv4_receive: false,
        ipv6_receive: false,
        refresh: true,
        extended: false,
    }
}

// The one link of a list.
fn one<'a>(alloc: Global, link: ReadyLink<'a>) -> Result<Vec<ReadyLink<'a>>, Fail> {
    let mut ready = Vec::new(alloc);
    ready.push(link)?;
    Ok(ready)
}

// What one call gives: a piece and `|`, or a sign.
fn received<L: Link>(alloc: Global, link: &mut L) -> Result<String, Fail> {
    let mut buffer = [0; 2];
    let sign = match link.recv(&mut buffer) {
        Recv::Got(count) => {
            let mut text = String::from_utf8(Vec::from_slice(alloc, &buffer[..count])?)?;
            text.push('|')?;
            return Ok(text);
        }
        Recv::End => ".",
        Recv::Quiet => "?",
        Recv::Failed => "!",
    };
    Ok(String::from_str(alloc, sign)?)
}

// What four calls give, and whether the link takes three bytes at once, or `no`.
fn exchange<D: Dialer>(alloc: Global, dialer: &mut D) -> Result<String, Fail> {
    let Dialled::Open(mut link) = dialer.connect(&settings()) else {
        return Ok(String::from_str(alloc, "no")?);
    };
    let mut text = String::new(alloc);
    for _ in 0..4 {
        text.push_str(received(alloc, &mut link)?.as_str())?;
    }
    let taken = link.send(b"xyz");
    text.push(if taken == Write::Wrote(3) { '+' } else { '-' })?;
    dialer.give_back(link);
    Ok(text)
}

// What two exchanges give where these calls of `connect`, and of the first link's `recv` and `send`, fail; and the
// count of faults, with how many calls of `connect` failed.
fn run_of(
    alloc: Global,
    connects: &[u64],
    recvs: &[u64],
    sends: &[u64],
) -> Result<(String, (u64, Option<u64>)), Fail> {
    let link = ReadyLink::new(alloc, b"abc", 16, 8)?
        .quiet()
        .giving(failing(recvs))
        .taking(failing(sends));
    let mut dialer = MemoryDialer::new(alloc, one(alloc, link)?, 2, connects)?;
    let mut text = exchange(alloc, &mut dialer)?;
    text.push(' ')?;
    text.push_str(exchange(alloc, &mut dialer)?.as_str())?;
    Ok((text, (dialer.faults(), dialer.failed())))
}

// Calls that fail, and what then comes of it, as `run_of` has them.
const RUNS: [(&[u64], &[u64], &[u64], &str, (u64, Option<u64>)); 5] = [
    (&[], &[], &[], "ab|c|??+ ....+", (0, Some(0))),
    (&[0], &[], &[], "no ab|c|??+", (1, Some(1))),
    (&[1], &[], &[], "ab|c|??+ no", (1, Some(1))),
    (&[], &[1, 3], &[], "ab|!c|!+ ....+", (1, Some(0))),
    (&[], &[], &[0], "ab|c|??- ....+", (1, Some(0))),
];

#[test]
fn each_listed_call_of_a_link_fails_and_counts(rt: HostRuntime) -> Result<(), Fail> {
    for (connects, recvs, sends, wanted, counts) in RUNS {
        let (text, counted) = run_of(rt.alloc(), connects, recvs, sends)?;
        assert_eq!(rt; text.as_str(), wanted);
        assert_eq!(rt; counted, counts, "{wanted}");
    }
    Ok(())
}

// Opens one link, and counts at these marks.
fn marked<'a>(alloc: Global, ends: &'a Mark, faults: &'a Mark) -> Result<MemoryDialer<'a>, Fail> {
    let link = ReadyLink::new(alloc, b"abc", 16, 8)?.quiet();
    let dialer = MemoryDialer::new(alloc, one(alloc, link)?, 1, &[])?;
    Ok(dialer.marking(ends, faults))
}

#[test]
fn what_a_link_gave_and_took_is_kept(rt: HostRuntime) -> Result<(), Fail> {
    let alloc = rt.alloc();
    let (ends, faults) = (Mark::new(), Mark::new());
    let mut dialer = marked(alloc, &ends, &faults)?;
    assert_eq!(rt; exchange(alloc, &mut dialer)?.as_str(), "ab|c|??+");
    assert_eq!(rt; (faults.count(), ends.count()), (0, 1));
    let ended = dialer.ended().ok_or("there is room")?;
    let first = ended.first().ok_or("a link has ended")?;
    assert_eq!(rt; first.quiets(), Some([3, 3].as_slice()));
    assert_eq!(rt; first.bytes(), Some(b"xyz".as_slice()));
    Ok(())
}

#[test]
fn a_dialer_tells_what_it_was_asked_while_there_is_room(rt: HostRuntime) -> Result<(), Fail> {
    let alloc = rt.alloc();
    let mut dialer = MemoryDialer::new(alloc, Vec::new(alloc), 1, &[])?;
    assert_eq!(rt; exchange(alloc, &mut dialer)?.as_str(), "....+");
    let asked = dialer.asked().ok_or("there is room")?;
    assert!(rt; asked.first() == Some(&settings()));
    assert_eq!(rt; exchange(alloc, &mut dialer)?.as_str(), "....+");
    assert!(rt; dialer.asked().is_none());
    assert!(rt; dialer.ended().is_none());
    Ok(())
}

#[test]
fn a_link_that_never_fails_gives_and_takes(rt: HostRuntime) -> Result<(), Fail> {
    let alloc = rt.alloc();
    let link = ReadyLink::new(alloc, b"abc", 16, 1)?.quiet();
    let mut dialer = SureDialer::new(alloc, one(alloc, link)?, 2)?;
    assert_eq!(rt; exchange(alloc, &mut dialer)?.as_str(), "ab|c|??+");
    assert_eq!(rt; exchange(alloc, &mut dialer)?.as_str(), "....+");
    assert_eq!(rt; dialer.asked().map(|asked| asked.len()), Some(2));
    let ended = dialer.ended().ok_or("there is room")?;
    let first = ended.first().ok_or("a link has ended")?;
    assert_eq!(rt; first.bytes(), Some(b"xyz".as_slice()));
    assert!(rt;
        first.quiets().is_none(),
        "there is room for one quiet call"
    );
    Ok(())
}

// The links that a dialer opens: one whose `recv` is held until the mark has come to 3, and one that counts at it what
// it takes, a byte a call.
fn two_links<'a>(
    alloc: Global,
    taken: &'a Mark,
    holds: &'a [Hold<'a>],
) -> Result<MemoryDialer<'a>, Fail> {
    let moved = Some(taken);
    let giving = Script {
        step: usize::MAX,
        failing: &[],
        holds,
        moved: None,
        faults: None,
    };
    let taking = Script {
        step: 1,
        failing: &[],
        holds: &[],
        moved,
        faults: None,
    };
    let mut ready = Vec::new(alloc);
    ready.push(ReadyLink::new(alloc, b"abc", 16, 8)?.giving(giving))?;
    ready.push(ReadyLink::new(alloc, b"", 16, 8)?.taking(taking))?;
    Ok(MemoryDialer::new(alloc, ready, 2, &[])?)
}

// Sends three bytes, and lets other threads run before each.
fn send_slowly<L: Link>(link: &mut L) {
    for _ in 0..3 {
        for _ in 0..100 {
            thread::yield_now();
        }
        link.send(b"xyz");
    }
}

#[test]
fn a_link_is_held_until_another_thread_has_sent(rt: HostRuntime) -> Result<(), Fail> {
    let taken = Mark::new();
    let holds = [Hold {
        at: 0,
        until: Until::Reached(&taken, 3),
    }];
    let mut dialer = two_links(rt.alloc(), &taken, &holds)?;
    let (Dialled::Open(mut held), Dialled::Open(mut other)) = (
        dialer.connect(&settings()),
        dialer.connect(&settings()),
    ) else {
        return Err(Fail::from("no links"));
    };
    let ((answer, count), _) = thread::join(
        &rt,
        || (held.recv(&mut [0; 8]), taken.count()),
        || send_slowly(&mut other),
    );
    assert_eq!(rt; (answer, count), (Recv::Got(3), 3));
    Ok(())
}
