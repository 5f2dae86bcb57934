use super::{SLEEP, SOON, millis_since, started};
use crate::pipes::write_to_child;
use crate::*;
use outside::{Leash, Pipes, Read, Sink, Source, Spawner, Write};
use std::io::pipe;
use std::test::Fail;
use std::thread;
use std::time::{Duration, Instant};
use wires::{PlainWriter, unblock};

// A program that has ended once its output has, and one that closes its input and lives on, with what is read first.
const DEAF: [(&[u8], Read); 2] = [
    (b"true", Read::End),
    (b"sh\0-c\0exec 0<&-; echo x; exec sleep 20", Read::Got(2)),
];

#[test]
fn a_write_to_a_child_that_is_gone_or_deaf_fails_and_kills_nobody(
    rt: HostRuntime,
) -> Result<(), Fail> {
    let post = Post::new(&rt)?;
    let mut spawner = ProcessSpawner::new(&rt, rt.alloc(), &post);
    for (run, first) in DEAF {
        let mut pipes = started(&mut spawner, run)?;
        assert_eq!(rt; pipes.source.read(&mut [0; 8]), first);
        assert_eq!(rt; pipes.sink.write(b"done\n"), Write::Failed, "{first:?}");
        assert_eq!(rt; pipes.sink.write(b"done\n"), Write::Failed, "{first:?}");
        assert_eq!(rt; pipes.sink.faults(), 2, "{first:?}");
        spawner.give_back(pipes);
    }
    assert_eq!(rt; spawner.faults(), 2);
    Ok(())
}

// Writes until the sink fails, and says how many bytes it took.
fn write_to_the_end<K: Sink>(sink: &mut K) -> usize {
    let mut taken = 0usize;
    'writes: for _ in 0..100_000 {
        match sink.write(b"done\n") {
            Write::Wrote(count) => taken = taken.saturating_add(count),
            Write::Failed => break,
        }
    }
    taken
}

#[test]
fn a_write_to_a_child_that_never_reads_ends_when_it_is_killed(rt: HostRuntime) -> Result<(), Fail> {
    let post = Post::new(&rt)?;
    let mut spawner = ProcessSpawner::new(&rt, rt.alloc(), &post);
    let Pipes {
        source,
        mut sink,
        mut leash,
    } = started(&mut spawner, SLEEP)?;
    let start = Instant::now(&rt)?;
    let (taken, _) = thread::join(
        &rt,
        || write_to_the_end(&mut sink),
        || {
            thread::sleep(&rt, Duration::from_millis(200));
            leash.kill();
        },
    );
    assert!(rt; taken > 4_096, "{taken}");
    spawner.give_back(Pipes {
        source,
        sink,
        leash,
    });
    assert!(rt; millis_since(&rt, &start)? < SOON);
    assert_eq!(rt; spawner.faults(), 1);
    Ok(())
}

#[test]
fn a_write_to_a_child_that_never_reads_ends_when_its_output_ends(
    rt: HostRuntime,
) -> Result<(), Fail> {
    let post = Post::new(&rt)?;
    let mut spawner = ProcessSpawner::new(&rt, rt.alloc(), &post);
    let Pipes {
        mut source,
        mut sink,
        leash,
    } = started(&mut spawner, b"sh\0-c\0exec sleep 20 >&-")?;
    let start = Instant::now(&rt)?;
    let (taken, answer) = thread::join(
        &rt,
        || write_to_the_end(&mut sink),
        || {
            thread::sleep(&rt, Duration::from_millis(200));
            source.read(&mut [0; 8])
        },
    );
    assert_eq!(rt; answer, Read::End);
    assert!(rt; taken > 4_096, "{taken}");
    spawner.give_back(Pipes {
        source,
        sink,
        leash,
    });
    assert!(rt; millis_since(&rt, &start)? < SOON);
    Ok(())
}

#[test]
fn a_write_to_a_child_that_never_reads_ends_when_its_worker_is_closed(
    rt: HostRuntime,
) -> Result<(), Fail> {
    let post = Post::new(&rt)?;
    let mut spawner = ProcessSpawner::new(&rt, rt.alloc(), &post);
    let mut pipes = started(&mut spawner, SLEEP)?;
    let start = Instant::now(&rt)?;
    post.writing().close();
    let taken = write_to_the_end(&mut pipes.sink);
    assert!(rt; taken > 4_096, "{taken}");
    spawner.give_back(pipes);
    assert!(rt; millis_since(&rt, &start)? < SOON);
    assert_eq!(rt; spawner.faults(), 1);
    Ok(())
}

#[test]
fn a_write_that_finds_no_room_for_long_fails(rt: HostRuntime) -> Result<(), Fail> {
    let post = Post::new(&rt)?;
    let (_reader, writer) = pipe(&rt)?;
    unblock(&writer)?;
    let mut writer = PlainWriter::new(writer);
    let piece = [b'x'; 65_536];
    let taken = write_to_child(&mut writer, post.next_child(), 2, &piece)?;
    assert_eq!(rt; taken, 65_536);
    let start = Instant::now(&rt)?;
    let late = write_to_child(&mut writer, post.next_child(), 2, &piece);
    assert!(rt; late.is_err());
    assert!(rt; millis_since(&rt, &start)? >= 200);
    Ok(())
}
