use super::{SLEEP, SOON, gives, millis_since, started};
use crate::*;
use outside::{Files, Leash, Opened, Pipes, Read, Sink, Source, Spawned, Spawner, Write};
use std::net::{SocketAddr, TcpListener};
use std::test::Fail;
use std::thread;
use std::time::{Duration, Instant};
use wires::dial;

#[test]
fn a_line_goes_to_a_child_and_back(rt: HostRuntime) -> Result<(), Fail> {
    let post = Post::new(&rt)?;
    let mut spawner = ProcessSpawner::new(&rt, rt.alloc(), &post);
    let mut pipes = started(&mut spawner, b"cat")?;
    assert_eq!(rt; pipes.sink.write(b"done\n"), Write::Wrote(5));
    assert!(rt; gives(&mut pipes.source, b"done\n"));
    pipes.leash.kill();
    assert_eq!(rt; pipes.source.read(&mut [0; 8]), Read::End);
    spawner.give_back(pipes);
    assert_eq!(rt; spawner.faults(), 0);
    Ok(())
}

#[test]
fn a_killed_child_ends_the_read_that_is_under_way(rt: HostRuntime) -> Result<(), Fail> {
    let post = Post::new(&rt)?;
    let mut spawner = ProcessSpawner::new(&rt, rt.alloc(), &post);
    let Pipes {
        mut source,
        sink,
        mut leash,
    } = started(&mut spawner, SLEEP)?;
    let start = Instant::now(&rt)?;
    let (answer, _) = thread::join(
        &rt,
        || source.read(&mut [0; 8]),
        || {
            thread::sleep(&rt, Duration::from_millis(50));
            leash.kill();
        },
    );
    assert_eq!(rt; answer, Read::End);
    assert!(rt; millis_since(&rt, &start)? < SOON);
    spawner.give_back(Pipes {
        source,
        sink,
        leash,
    });
    assert_eq!(rt; spawner.faults(), 0);
    Ok(())
}

// Each program leaves one behind that holds its output for longer. The first ends by itself.
const HOLDERS: [(&[u8], bool); 2] = [
    (b"sh\0-c\0sleep 20 2>/dev/null & echo a; echo b", false),
    (
        b"sh\0-c\0sleep 20 2>/dev/null & echo a; echo b; exec cat",
        true,
    ),
];

#[test]
fn a_childs_end_is_seen_while_a_program_that_it_started_holds_the_pipe(
    rt: HostRuntime,
) -> Result<(), Fail> {
    let post = Post::new(&rt)?;
    let mut spawner = ProcessSpawner::new(&rt, rt.alloc(), &post);
    for (run, is_killed) in HOLDERS {
        let start = Instant::now(&rt)?;
        let mut pipes = started(&mut spawner, run)?;
        assert!(rt; gives(&mut pipes.source, b"a\nb\n"), "killed: {is_killed}");
        if is_killed {
            pipes.leash.kill();
        }
        assert_eq!(rt;
            pipes.source.read(&mut [0; 8]),
            Read::End,
            "killed: {is_killed}"
        );
        spawner.give_back(pipes);
        assert!(rt; millis_since(&rt, &start)? < SOON, "killed: {is_killed}");
    }
    assert_eq!(rt; spawner.faults(), 0);
    Ok(())
}

// A program, what it writes, and whether it is killed behind that or ends by itself.
struct Ending {
    run: &'static [u8],
    written: &'static [u8],
    is_killed: bool,
}

// The pipe of each but the first is held for two seconds by a program that it leaves behind.
const ENDINGS: [Ending; 3] = [
    Ending {
        run: SLEEP,
        written: b"",
        is_killed: true,
    },
    Ending {
        run: b"sh\0-c\0sleep 2 2>/dev/null & echo a",
        written: b"a\n",
        is_killed: false,
    },
    Ending {
        run: b"sh\0-c\0sleep 2 2>/dev/null & echo a; exec cat",
        written: b"a\n",
        is_killed: true,
    },
];

// How many milliseconds pass until the end of such a child is seen.
fn time_of_end(
    rt: &HostRuntime,
    spawner: &mut ProcessSpawner<'_, HostRuntime>,
    ending: &Ending,
) -> Result<u64, Fail> {
    let mut pipes = started(spawner, ending.run)?;
    let is_written = gives(&mut pipes.source, ending.written);
    let start = Instant::now(rt)?;
    if ending.is_killed {
        pipes.leash.kill();
    }
    let answer = pipes.source.read(&mut [0; 8]);
    let took = millis_since(rt, &start)?;
    spawner.give_back(pipes);
    if is_written && answer == Read::End {
        Ok(took)
    } else {
        Err(Fail::from("no end"))
    }
}

#[test]
fn a_childs_end_is_seen_within_a_fifth_of_a_second(rt: HostRuntime) -> Result<(), Fail> {
    let post = Post::new(&rt)?;
    let mut spawner = ProcessSpawner::new(&rt, rt.alloc(), &post);
    for ending in &ENDINGS {
        // The best of five, since the machine may be busy.
        let mut least = u64::MAX;
        'tries: for _ in 0..5 {
            least = least.min(time_of_end(&rt, &mut spawner, ending)?);
        }
        assert!(rt; least < 200, "{least} ms, killed: {}", ending.is_killed);
    }
    Ok(())
}

// No such program in the path or at its place, no right to run it, no name, and no text.
const NO_PROGRAMS: [&[u8]; 5] = [
    b"no-such-program",
    b"/no/such/program",
    b"/etc/passwd",
    b"",
    b"\xff",
];

#[test]
fn a_program_that_cannot_be_started_counts(rt: HostRuntime) -> Result<(), Fail> {
    let post = Post::new(&rt)?;
    let mut spawner = ProcessSpawner::new(&rt, rt.alloc(), &post);
    for run in NO_PROGRAMS {
        assert!(rt; matches!(spawner.spawn(run), Spawned::Failed));
    }
    assert_eq!(rt; spawner.faults(), 5);
    Ok(())
}

#[test]
fn a_closed_reader_waits_for_no_line(rt: HostRuntime) -> Result<(), Fail> {
    let post = Post::new(&rt)?;
    let mut spawner = ProcessSpawner::new(&rt, rt.alloc(), &post);
    let mut pipes = started(&mut spawner, SLEEP)?;
    let start = Instant::now(&rt)?;
    post.reading().close();
    assert_eq!(rt; pipes.source.read(&mut [0; 8]), Read::End);
    spawner.give_back(pipes);
    assert!(rt; millis_since(&rt, &start)? < SOON);
    assert_eq!(rt; spawner.faults(), 0);
    Ok(())
}

#[test]
fn a_child_has_nothing_open_but_its_three_streams(rt: HostRuntime) -> Result<(), Fail> {
    let post = Post::new(&rt)?;
    let mut spawner = ProcessSpawner::new(&rt, rt.alloc(), &post);
    let listener: TcpListener = TcpListener::bind(&rt, "127.0.0.1:0")?;
    let local: SocketAddr = "127.0.0.2:0".parse()?;
    let _link = dial(&rt, local, listener.local_addr()?, post.reading(), 5_000)?;
    let mut files = StdFiles::new(&rt);
    let opened = files.open("/proc/self/stat");
    assert!(rt; matches!(opened, Opened::Open(_)));
    let first = started(&mut spawner, b"cat")?;
    let mut second = started(&mut spawner, b"sh\0-c\0ls /proc/$$/fd; true")?;
    assert!(rt; gives(&mut second.source, b"0\n1\n2\n"));
    assert_eq!(rt; second.source.read(&mut [0; 8]), Read::End);
    spawner.give_back(second);
    spawner.give_back(first);
    assert_eq!(rt; spawner.faults(), 0);
    Ok(())
}

#[test]
fn a_childs_input_ends_while_one_that_was_started_later_lives(rt: HostRuntime) -> Result<(), Fail> {
    let board = Board::new(rt.alloc(), &rt, 2, 0)?;
    let (Some(one), Some(other)) = (board.post(0), board.post(1)) else {
        return Err(Fail::from("no post"));
    };
    let mut first = ProcessSpawner::new(&rt, rt.alloc(), one);
    let mut second = ProcessSpawner::new(&rt, rt.alloc(), other);
    let Pipes {
        mut source,
        sink,
        leash,
    } = started(&mut first, b"cat")?;
    let later = started(&mut second, SLEEP)?;
    let start = Instant::now(&rt)?;
    drop(sink);
    assert_eq!(rt; source.read(&mut [0; 8]), Read::End);
    assert!(rt; millis_since(&rt, &start)? < SOON);
    drop(leash);
    second.give_back(later);
    Ok(())
}
