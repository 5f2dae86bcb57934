use super::{SOON, millis_since};
use crate::*;
use outside::{Dialer, Dialled, Link, Recv, Write};
use route_values::{Addr, Settings};
use std::io::{Read, Write as _};
use std::net::{IpAddr, Ipv4Addr, Ipv6Addr, SocketAddr, TcpListener, TcpStream};
use std::os::unix::net::UnixStream;
use std::test::Fail;
use std::thread;
use std::time::{Duration, Instant};
use wires::{Bell, dial, unblock};

// 127.0.0.1.
const FIRST: Addr = Addr::V4(0x7f00_0001);

// 127.0.0.2.
const SECOND: Addr = Addr::V4(0x7f00_0002);

// ::1, IPv6's only loopback address.
const SIXTH: Addr = Addr::V6(1);

fn settings(local: Addr, peer: Addr, port: u16) -> Settings {
    Settings {
        peer,
        local,
        port,
        local_as: 65_001,
        peer_as: 65_002,
        router_id: 1,
        hold: 90,
        ipv4: true,
        ipv6: true,
        ipv4_send: false,
        ipv6_send: false,
        ipv4_receive: false,
        ipv6_receive: false,
        refresh: true,
        extended: false,
    }
}

fn ip_of(address: Addr) -> IpAddr {
    match address {
        Addr::V4(number) => IpAddr::V4(Ipv4Addr::from(number)),
        Addr::V6(number) => IpAddr::V6(Ipv6Addr::from(number)),
    }
}

// A link, and the peer's end of it, which sees the address that it comes from.
fn linked<'a>(
    rt: &HostRuntime,
    dialer: &mut TcpDialer<'a, HostRuntime>,
    local: Addr,
    peer: Addr,
) -> Result<(TcpLink<'a>, TcpStream), Fail> {
    let listener: TcpListener = TcpListener::bind(rt, (ip_of(peer), 0))?;
    let port = listener.local_addr()?.port();
    let Dialled::Open(link) = dialer.connect(&settings(local, peer, port)) else {
        return Err(Fail::from("no link"));
    };
    let (far, from) = listener.accept()?;
    if from.ip() == ip_of(local) {
        Ok((link, far))
    } else {
        Err(Fail::from("a link from another address"))
    }
}

#[test]
fn a_link_from_the_local_address_gives_and_takes_until_the_peer_closes_it(
    rt: HostRuntime,
) -> Result<(), Fail> {
    let bell = Bell::new(&rt)?;
    let mut dialer = TcpDialer::new(&rt, &bell);
    for (local, peer) in [(SECOND, FIRST), (SIXTH, SIXTH)] {
        let (mut link, mut far) = linked(&rt, &mut dialer, local, peer)?;
        let mut buffer = [0; 16];
        assert_eq!(rt; link.send(b"there"), Write::Wrote(5), "{peer:?}");
        assert_eq!(rt; far.read(&mut buffer)?, 5, "{peer:?}");
        far.write_all(b"back")?;
        assert_eq!(rt; link.recv(&mut buffer), Recv::Got(4), "{peer:?}");
        assert!(rt; buffer.starts_with(b"back"), "{peer:?}");
        drop(far);
        assert_eq!(rt; link.recv(&mut buffer), Recv::End, "{peer:?}");
        dialer.give_back(link);
    }
    assert_eq!(rt; dialer.faults(), 0);
    Ok(())
}

#[test]
fn what_was_sent_last_arrives_before_the_link_is_closed(rt: HostRuntime) -> Result<(), Fail> {
    let bell = Bell::new(&rt)?;
    let mut dialer = TcpDialer::new(&rt, &bell);
    let (mut link, mut far) = linked(&rt, &mut dialer, SECOND, FIRST)?;
    assert_eq!(rt; link.send(b"last"), Write::Wrote(4));
    dialer.give_back(link);
    let mut buffer = [0; 16];
    assert_eq!(rt; far.read(&mut buffer)?, 4);
    assert_eq!(rt; far.read(&mut buffer)?, 0);
    assert_eq!(rt; dialer.faults(), 0);
    Ok(())
}

#[test]
fn a_look_that_finds_nothing_waits_for_half_a_second(rt: HostRuntime) -> Result<(), Fail> {
    let bell = Bell::new(&rt)?;
    let (near, _far) = UnixStream::pair(&rt)?;
    unblock(&near)?;
    let mut link = StreamLink::new(near, &bell);
    let start = Instant::now(&rt)?;
    assert_eq!(rt; link.recv(&mut [0; 8]), Recv::Quiet);
    assert!(rt; millis_since(&rt, &start)? >= 500);
    assert_eq!(rt; link.faults(), 0);
    Ok(())
}

#[test]
fn what_comes_before_a_ring_is_given_and_not_hidden_by_it(rt: HostRuntime) -> Result<(), Fail> {
    let bell = Bell::new(&rt)?;
    let (near, mut far) = UnixStream::pair(&rt)?;
    unblock(&near)?;
    let mut link = StreamLink::new(near, &bell);
    for _ in 0..100 {
        let (answer, written) = thread::join(
            &rt,
            || link.recv(&mut [0; 8]),
            || {
                let written = far.write(b"x").is_ok();
                bell.ring();
                written
            },
        );
        assert!(rt; written);
        assert_eq!(rt; answer, Recv::Got(1));
        bell.wait(0);
    }
    Ok(())
}

#[test]
fn a_ring_ends_a_look_at_once(rt: HostRuntime) -> Result<(), Fail> {
    let bell = Bell::new(&rt)?;
    let (near, _far) = UnixStream::pair(&rt)?;
    unblock(&near)?;
    let mut link = StreamLink::new(near, &bell);
    let start = Instant::now(&rt)?;
    // Without rings these looks would take twenty seconds.
    for _ in 0..40 {
        let (answer, _) = thread::join(&rt, || link.recv(&mut [0; 8]), || bell.ring());
        assert_eq!(rt; answer, Recv::Quiet);
    }
    bell.close();
    for _ in 0..40 {
        assert_eq!(rt; link.recv(&mut [0; 8]), Recv::Quiet);
    }
    assert!(rt; millis_since(&rt, &start)? < SOON);
    Ok(())
}

// Sends until the link fails, and says how many bytes it took.
fn send_to_the_end<L: Link>(link: &mut L) -> usize {
    let piece = [b'x'; 65_536];
    let mut taken = 0usize;
    'sends: for _ in 0..100_000 {
        match link.send(&piece) {
            Write::Wrote(count) => taken = taken.saturating_add(count),
            Write::Failed => break,
        }
    }
    taken
}

#[test]
fn a_send_to_a_peer_that_takes_nothing_ends_when_the_worker_is_closed(
    rt: HostRuntime,
) -> Result<(), Fail> {
    let bell = Bell::new(&rt)?;
    let mut dialer = TcpDialer::new(&rt, &bell);
    let (mut link, _far) = linked(&rt, &mut dialer, SECOND, FIRST)?;
    let start = Instant::now(&rt)?;
    let (taken, _) = thread::join(
        &rt,
        || send_to_the_end(&mut link),
        || {
            thread::sleep(&rt, Duration::from_millis(100));
            bell.ring();
            thread::sleep(&rt, Duration::from_millis(100));
            bell.close();
        },
    );
    let took = millis_since(&rt, &start)?;
    assert!(rt; taken > 65_536, "{taken}");
    assert!(rt; took >= 200, "a ring isn't heard");
    assert!(rt; took < SOON);
    assert_eq!(rt; link.faults(), 1);
    dialer.give_back(link);
    assert_eq!(rt; dialer.faults(), 1);
    Ok(())
}

#[test]
fn a_link_that_the_peer_resets_fails_and_counts(rt: HostRuntime) -> Result<(), Fail> {
    let bell = Bell::new(&rt)?;
    let mut dialer = TcpDialer::new(&rt, &bell);
    let (mut link, far) = linked(&rt, &mut dialer, SECOND, FIRST)?;
    // A connection that is closed before all was read is reset.
    assert_eq!(rt; link.send(b"unread"), Write::Wrote(6));
    bell.wait_to_read(&far, 5_000);
    drop(far);
    assert_eq!(rt; link.recv(&mut [0; 8]), Recv::Failed);
    assert_eq!(rt; link.send(b"x"), Write::Failed);
    assert_eq!(rt; link.faults(), 2);
    dialer.give_back(link);
    assert_eq!(rt; dialer.faults(), 1);
    Ok(())
}

// Connections to a peer that accepts none, as many as wait for it. A further one isn't answered.
fn waiting_at(rt: &HostRuntime, bell: &Bell, peer: SocketAddr) -> Result<Vec<TcpStream>, Fail> {
    let local = SocketAddr::new(ip_of(SECOND), 0);
    let mut waiting = Vec::new(rt.alloc());
    'connections: for _ in 0..4_096 {
        match dial(rt, local, peer, bell, 1_000) {
            Ok(stream) => waiting.push(stream)?,
            Err(_) => return Ok(waiting),
        }
    }
    Err(Fail::from("each connection was answered"))
}

#[test]
fn a_peer_that_never_answers_is_given_up_within_five_seconds_or_when_the_worker_is_closed(
    rt: HostRuntime,
) -> Result<(), Fail> {
    let bell = Bell::new(&rt)?;
    let mut dialer = TcpDialer::new(&rt, &bell);
    let listener: TcpListener = TcpListener::bind(&rt, "127.0.0.1:0")?;
    let peer = listener.local_addr()?;
    let to = settings(SECOND, FIRST, peer.port());
    let _waiting = waiting_at(&rt, &bell, peer)?;
    let start = Instant::now(&rt)?;
    bell.ring();
    assert!(rt; matches!(dialer.connect(&to), Dialled::Failed));
    let took = millis_since(&rt, &start)?;
    assert!(rt; took >= 5_000, "a ring isn't heard");
    assert!(rt; took < SOON);
    bell.close();
    assert!(rt; matches!(dialer.connect(&to), Dialled::Failed));
    assert!(rt; millis_since(&rt, &start)?.saturating_sub(took) < 4_000);
    assert_eq!(rt; dialer.faults(), 2);
    Ok(())
}

#[test]
fn a_peer_that_refuses_counts(rt: HostRuntime) -> Result<(), Fail> {
    let bell = Bell::new(&rt)?;
    let mut dialer = TcpDialer::new(&rt, &bell);
    let listener: TcpListener = TcpListener::bind(&rt, "127.0.0.1:0")?;
    let port = listener.local_addr()?.port();
    drop(listener);
    let refused = dialer.connect(&settings(SECOND, FIRST, port));
    assert!(rt; matches!(refused, Dialled::Failed));
    assert_eq!(rt; dialer.faults(), 1);
    Ok(())
}
