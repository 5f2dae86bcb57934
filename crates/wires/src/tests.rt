use super::*;
use std::io::{ErrorKind, Read, Write, pipe};
use std::net::{SocketAddr, TcpListener, TcpStream};
use std::os::fd::AsRawFd;
use std::process::Command;
use std::test::Fail;
use std::time::{Clock, Duration, Instant};
use std::{fs, process, thread};

// A time that no test waits for.
const LONG: u32 = 3_600_000;

// The flag of an open file whose calls don't wait.
const O_NONBLOCK: u64 = 0o4000;

// The flag of a descriptor that no child inherits.
const O_CLOEXEC: u64 = 0o2000000;

fn millis_since<R: Clock>(rt: &R, start: &Instant) -> Result<u64, Fail> {
    Ok(u64::try_from(start.elapsed(rt)?.as_millis())?)
}

#[test]
fn a_ring_ends_the_next_wait_and_no_rest(rt: HostRuntime) -> Result<(), Fail> {
    let bell = Bell::new(&rt)?;
    bell.ring();
    bell.ring();
    bell.wait(LONG);
    let start = Instant::now(&rt)?;
    bell.wait(20);
    assert!(rt; millis_since(&rt, &start)? >= 20, "one wait for two rings");
    bell.ring();
    bell.rest(20);
    assert!(rt; millis_since(&rt, &start)? >= 40, "a rest hears no ring");
    bell.wait(LONG);
    Ok(())
}

#[test]
fn a_wait_of_another_thread_is_rung_for_and_its_rest_closed(rt: HostRuntime) -> Result<(), Fail> {
    let bell = Bell::new(&rt)?;
    thread::join(&rt, || bell.wait(LONG), || bell.ring());
    thread::join(
        &rt,
        || bell.rest(LONG),
        || {
            thread::sleep(&rt, Duration::from_millis(20));
            bell.ring();
            bell.close();
        },
    );
    bell.wait(LONG);
    bell.wait(LONG);
    bell.rest(LONG);
    assert!(rt; bell.is_closed());
    Ok(())
}

#[test]
fn a_wait_beside_a_pipe_ends_by_a_byte_by_a_ring_or_by_time(rt: HostRuntime) -> Result<(), Fail> {
    let bell = Bell::new(&rt)?;
    let (mut reader, mut writer) = pipe(&rt)?;
    assert_eq!(rt; bell.wait_to_read(&reader, 20), Woken::Quiet);
    bell.ring();
    assert_eq!(rt; bell.wait_to_read(&reader, LONG), Woken::Quiet);
    writer.write_all(b"x")?;
    assert_eq!(rt; bell.wait_to_read(&reader, LONG), Woken::Ready);
    assert_eq!(rt; reader.read(&mut [0; 8])?, 1);
    bell.ring();
    assert_eq!(rt; bell.rest_to_write(&writer, LONG), Woken::Ready);
    Ok(())
}

#[test]
fn a_pipe_that_is_full_or_that_nobody_reads_fails_and_kills_nobody(
    rt: HostRuntime,
) -> Result<(), Fail> {
    let bell = Bell::new(&rt)?;
    let (reader, writer) = pipe(&rt)?;
    unblock(&writer)?;
    let mut writer = PlainWriter::new(writer);
    let piece = [b'x'; 65_536];
    assert_eq!(rt; writer.write(&piece)?, 65_536);
    assert_eq!(rt;
        writer.write(&piece).err().map(|e| e.kind()),
        Some(ErrorKind::WouldBlock)
    );
    assert_eq!(rt; bell.rest_to_write(&writer, 20), Woken::Quiet);
    drop(reader);
    assert_eq!(rt; bell.rest_to_write(&writer, LONG), Woken::Ready);
    assert_eq!(rt;
        writer.write(&piece).err().map(|e| e.kind()),
        Some(ErrorKind::BrokenPipe)
    );
    Ok(())
}

// The flags of an open file, as the system prints them in octal digits.
fn flags_of(rt: &HostRuntime, stream: &TcpStream) -> Result<u64, Fail> {
    let alloc = rt.alloc();
    let path = format!(in alloc; "/proc/self/fdinfo/{}", stream.as_raw_fd())?;
    let text = fs::read_to_string(rt, path.as_str())?;
    let mut words = text.split_whitespace().skip_while(|word| *word != "flags:");
    let digits = words.nth(1).ok_or("no flags")?;
    Ok(u64::from_str_radix(digits, 8)?)
}

#[test]
fn a_link_comes_from_the_stated_address_without_delay_and_is_not_inherited(
    rt: HostRuntime,
) -> Result<(), Fail> {
    let bell = Bell::new(&rt)?;
    for (listening, local) in [("127.0.0.1:0", "127.0.0.2:0"), ("[::1]:0", "[::1]:0")] {
        let local: SocketAddr = local.parse()?;
        let listener: TcpListener = TcpListener::bind(&rt, listening)?;
        let mut near = dial(&rt, local, listener.local_addr()?, &bell, 5_000)?;
        let (mut far, from) = listener.accept()?;
        assert_eq!(rt; from.ip(), local.ip());
        assert!(rt; near.nodelay()?, "{local}");
        let flags = flags_of(&rt, &near)?;
        assert_eq!(rt; flags & O_NONBLOCK, O_NONBLOCK, "{local}");
        assert_eq!(rt; flags & O_CLOEXEC, O_CLOEXEC, "{local}");
        near.write_all(b"there")?;
        assert_eq!(rt; far.read(&mut [0; 8])?, 5, "{local}");
        far.write_all(b"back")?;
        assert_eq!(rt; bell.wait_to_read(&near, 5_000), Woken::Ready, "{local}");
        assert_eq!(rt; near.read(&mut [0; 8])?, 4, "{local}");
    }
    Ok(())
}

#[test]
fn an_address_that_cannot_be_had_fails_at_once(rt: HostRuntime) -> Result<(), Fail> {
    let bell = Bell::new(&rt)?;
    let listener: TcpListener = TcpListener::bind(&rt, "127.0.0.1:0")?;
    let heard = listener.local_addr()?;
    let closed: TcpListener = TcpListener::bind(&rt, "127.0.0.1:0")?;
    let deaf = closed.local_addr()?;
    drop(closed);
    for (local, peer, kind) in [
        ("127.0.0.1:0", deaf, ErrorKind::ConnectionRefused),
        ("192.0.2.1:0", heard, ErrorKind::AddrNotAvailable),
        ("[::1]:0", heard, ErrorKind::Uncategorized),
    ] {
        let answer = dial(&rt, local.parse()?, peer, &bell, LONG);
        assert_eq!(rt; answer.err().map(|e| e.kind()), Some(kind), "{local}");
    }
    Ok(())
}

#[test]
fn a_peer_that_never_answers_is_given_up_in_time_or_when_the_bell_is_closed(
    rt: HostRuntime,
) -> Result<(), Fail> {
    let bell = Bell::new(&rt)?;
    let listener: TcpListener = TcpListener::bind(&rt, "127.0.0.1:0")?;
    let peer = listener.local_addr()?;
    let local: SocketAddr = "127.0.0.1:0".parse()?;
    // A queue of length 0 takes one connection, and the next one isn't answered.
    libc::net::listen(listener.as_raw_fd(), 0);
    let _first = dial(&rt, local, peer, &bell, 5_000)?;
    let start = Instant::now(&rt)?;
    bell.ring();
    let late = dial(&rt, local, peer, &bell, 50);
    assert_eq!(rt; late.err().map(|e| e.kind()), Some(ErrorKind::TimedOut));
    assert!(rt; millis_since(&rt, &start)? >= 50);
    let (closed, _) = thread::join(
        &rt,
        || dial(&rt, local, peer, &bell, LONG).err().map(|e| e.kind()),
        || bell.close(),
    );
    assert_eq!(rt; closed, Some(ErrorKind::TimedOut));
    Ok(())
}

#[test]
fn a_child_is_seen_to_have_ended_until_it_is_waited_for(rt: HostRuntime) -> Result<(), Fail> {
    let own = Watch::new(rt.alloc(), process::id(rt.process()))?;
    assert!(rt; !own.has_ended());
    let mut command = Command::new(rt.alloc(), "true")?;
    let mut child = command.spawn(&rt)?;
    let watch = Watch::new(rt.alloc(), child.id())?;
    'looks: for _ in 0..500 {
        if watch.has_ended() {
            break;
        }
        thread::sleep(&rt, Duration::from_millis(10));
    }
    assert!(rt; watch.has_ended());
    child.wait()?;
    assert!(rt; !watch.has_ended());
    Ok(())
}
