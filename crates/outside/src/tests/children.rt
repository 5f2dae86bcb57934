use super::{failing, pieces};
use crate::*;
use std::alloc::Global;
use std::test::Fail;
use std::thread;

// The one child of a list.
fn one<'a>(alloc: Global, child: ReadyChild<'a>) -> Result<Vec<ReadyChild<'a>>, Fail> {
    let mut ready = Vec::new(alloc);
    ready.push(child)?;
    Ok(ready)
}

// What a child gives in pieces of at most two bytes, and whether it takes three bytes, or `no`.
fn visit<S: Spawner>(alloc: Global, spawner: &mut S) -> Result<String, Fail> {
    let Spawned::Open(pipes) = spawner.spawn(b"cat") else {
        return Ok(String::from_str(alloc, "no")?);
    };
    let Pipes {
        mut source,
        mut sink,
        leash,
    } = pipes;
    let given = pieces(alloc, &mut source, 2);
    let taken = write_all(&mut sink, b"xyz");
    spawner.give_back(Pipes {
        source,
        sink,
        leash,
    });
    let mut text = given?;
    text.push(if taken.is_ok() { '+' } else { '-' })?;
    Ok(text)
}

// What two visits give where these calls of `spawn`, and of the first child's read and write, fail; and the count of
// faults, with how many calls of `spawn` failed.
fn run_of(
    alloc: Global,
    spawns: &[u64],
    reads: &[u64],
    writes: &[u64],
) -> Result<(String, (u64, Option<u64>)), Fail> {
    let child = ReadyChild::new(alloc, b"abc", 16)?
        .giving(failing(reads))
        .taking(failing(writes));
    let mut spawner = MemorySpawner::new(alloc, one(alloc, child)?, 2, spawns)?;
    let mut text = visit(alloc, &mut spawner)?;
    text.push(' ')?;
    text.push_str(visit(alloc, &mut spawner)?.as_str())?;
    Ok((text, (spawner.faults(), spawner.failed())))
}

// Calls that fail, and what then comes of it, as `run_of` has them.
const RUNS: [(&[u64], &[u64], &[u64], &str, (u64, Option<u64>)); 6] = [
    (&[], &[], &[], "ab|c|+ +", (0, Some(0))),
    (&[0], &[], &[], "no ab|c|+", (1, Some(1))),
    (&[1], &[], &[], "ab|c|+ no", (1, Some(1))),
    (&[0, 1], &[], &[], "no no", (2, Some(2))),
    (&[], &[1], &[], "ab|!c|+ +", (1, Some(0))),
    (&[], &[2], &[0], "ab|c|!- +", (1, Some(0))),
];

#[test]
fn each_listed_call_of_a_child_fails_and_counts(rt: HostRuntime) -> Result<(), Fail> {
    for (spawns, reads, writes, wanted, counts) in RUNS {
        let (text, counted) = run_of(rt.alloc(), spawns, reads, writes)?;
        assert_eq!(rt; text.as_str(), wanted);
        assert_eq!(rt; counted, counts, "{wanted}");
    }
    Ok(())
}

#[test]
fn a_child_that_never_fails_gives_and_takes(rt: HostRuntime) -> Result<(), Fail> {
    let alloc = rt.alloc();
    let child = ReadyChild::new(alloc, b"abc", 16)?;
    let mut spawner = SureSpawner::new(alloc, one(alloc, child)?, 2)?;
    assert_eq!(rt; visit(alloc, &mut spawner)?.as_str(), "ab|c|+");
    assert_eq!(rt; visit(alloc, &mut spawner)?.as_str(), "+");
    assert_eq!(rt; spawner.asked().map(|asked| asked.len()), Some(2));
    let ended = spawner.ended().ok_or("there is room")?;
    let first = ended.first().ok_or("a child has ended")?;
    assert_eq!(rt; first.sink.bytes(), Some(b"xyz".as_slice()));
    Ok(())
}

// The pipes of the next child.
fn started<'a>(
    spawner: &mut MemorySpawner<'a>,
) -> Result<Pipes<ChildSource<'a>, ChildSink<'a>, ChildLeash<'a>>, Fail> {
    match spawner.spawn(b"cat") {
        Spawned::Open(pipes) => Ok(pipes),
        Spawned::Failed => Err(Fail::from("no child")),
    }
}

// A script that holds these.
fn holding<'a>(holds: &'a [Hold<'a>]) -> Script<'a> {
    Script {
        step: usize::MAX,
        failing: &[],
        holds,
        moved: None,
        faults: None,
    }
}

// A child that is killed before its first read, and what its second read answers. Its source is held behind two bytes
// until the mark has come to 3, so that a read which is held answers `End`.
fn read_behind_a_hold(alloc: Global, mark: &Mark) -> Result<Read, Fail> {
    let killed = Mark::new();
    let holds = [Hold {
        at: 2,
        until: Until::Reached(mark, 3),
    }];
    let child = ReadyChild::new(alloc, b"abcd", 16)?
        .giving(holding(&holds))
        .killed_at(&killed);
    let mut spawner = MemorySpawner::new(alloc, one(alloc, child)?, 1, &[])?;
    let mut pipes = started(&mut spawner)?;
    pipes.leash.kill();
    let mut buffer = [0; 8];
    match pipes.source.read(&mut buffer) {
        Read::Got(2) => Ok(pipes.source.read(&mut buffer)),
        other => Ok(other),
    }
}

#[test]
fn a_hold_lets_go_where_its_mark_is_reached_and_not_before(rt: HostRuntime) -> Result<(), Fail> {
    let mark = Mark::new();
    for wanted in [Read::End, Read::End, Read::End, Read::Got(2), Read::Got(2)] {
        let answer = read_behind_a_hold(rt.alloc(), &mark)?;
        assert_eq!(rt; answer, wanted, "{}", mark.count());
        mark.add(1);
    }
    assert!(rt; !mark.was_missed());
    Ok(())
}

#[test]
fn a_read_that_is_held_too_long_fails_and_a_kill_ends_it(rt: HostRuntime) -> Result<(), Fail> {
    let alloc = rt.alloc();
    let (mark, killed) = (Mark::new(), Mark::new());
    let holds = [Hold {
        at: 0,
        until: Until::Reached(&mark, 1),
    }];
    let child = ReadyChild::new(alloc, b"abcd", 16)?
        .giving(holding(&holds))
        .killed_at(&killed);
    let mut spawner = MemorySpawner::new(alloc, one(alloc, child)?, 1, &[])?;
    let mut pipes = started(&mut spawner)?;
    assert_eq!(rt; pipes.source.read(&mut [0; 8]), Read::Failed);
    assert!(rt; mark.was_missed());
    pipes.leash.kill();
    assert_eq!(rt; pipes.source.read(&mut [0; 8]), Read::End);
    spawner.give_back(pipes);
    assert_eq!(rt; (spawner.faults(), killed.count()), (1, 1));
    Ok(())
}

// Lets other threads run, and kills.
fn kill_later<L: Leash>(leash: &mut L) {
    for _ in 0..100 {
        thread::yield_now();
    }
    leash.kill();
}

// Starts a child that is held behind its first byte until it is killed.
fn held_child<'a>(
    alloc: Global,
    killed: &'a Mark,
    holds: &'a [Hold<'a>],
) -> Result<MemorySpawner<'a>, Fail> {
    let child = ReadyChild::new(alloc, b"abcd", 16)?
        .giving(holding(holds))
        .killed_at(killed);
    Ok(MemorySpawner::new(alloc, one(alloc, child)?, 1, &[])?)
}

#[test]
fn a_hold_until_the_kill_ends_by_it_and_not_before(rt: HostRuntime) -> Result<(), Fail> {
    let killed = Mark::new();
    let holds = [Hold {
        at: 1,
        until: Until::Killed,
    }];
    let mut spawner = held_child(rt.alloc(), &killed, &holds)?;
    let mut pipes = started(&mut spawner)?;
    assert_eq!(rt; pipes.source.read(&mut [0; 8]), Read::Got(1));
    let Pipes {
        mut source,
        sink: _,
        mut leash,
    } = pipes;
    let ((answer, count), _) = thread::join(
        &rt,
        || (source.read(&mut [0; 8]), killed.count()),
        || kill_later(&mut leash),
    );
    assert_eq!(rt; (answer, count), (Read::End, 1));
    Ok(())
}

// Reads three times, and lets other threads run before each.
fn read_slowly<S: Source>(source: &mut S) {
    for _ in 0..3 {
        for _ in 0..100 {
            thread::yield_now();
        }
        source.read(&mut [0; 8]);
    }
}

// Starts a child that gives a byte a call and counts it at the mark, and whose sink holds these.
fn counted_child<'a>(
    alloc: Global,
    given: &'a Mark,
    holds: &'a [Hold<'a>],
) -> Result<MemorySpawner<'a>, Fail> {
    let moved = Some(given);
    let giving = Script {
        step: 1,
        failing: &[],
        holds: &[],
        moved,
        faults: None,
    };
    let child = ReadyChild::new(alloc, b"abc", 16)?
        .giving(giving)
        .taking(holding(holds));
    Ok(MemorySpawner::new(alloc, one(alloc, child)?, 1, &[])?)
}

#[test]
fn a_write_is_held_until_another_thread_has_read(rt: HostRuntime) -> Result<(), Fail> {
    let given = Mark::new();
    let holds = [Hold {
        at: 0,
        until: Until::Reached(&given, 3),
    }];
    let mut spawner = counted_child(rt.alloc(), &given, &holds)?;
    let Pipes {
        mut source,
        mut sink,
        leash: _,
    } = started(&mut spawner)?;
    let ((answer, count), _) = thread::join(
        &rt,
        || (sink.write(b"xyz"), given.count()),
        || read_slowly(&mut source),
    );
    assert_eq!(rt; (answer, count), (Write::Wrote(3), 3));
    Ok(())
}

// Where a child's bytes, its end and its faults are counted.
#[derive(Drop)]
struct Counts {
    given: Mark,
    taken: Mark,
    read_faults: Mark,
    ends: Mark,
    faults: Mark,
}

// Starts a child whose first read fails, whose sink takes two bytes a call and holds these, and which counts.
fn marked<'a>(
    alloc: Global,
    counts: &'a Counts,
    holds: &'a [Hold<'a>],
) -> Result<MemorySpawner<'a>, Fail> {
    let (given, taken) = (Some(&counts.given), Some(&counts.taken));
    let read_faults = Some(&counts.read_faults);
    let giving = Script {
        step: usize::MAX,
        failing: &[0],
        holds: &[],
        moved: given,
        faults: read_faults,
    };
    let taking = Script {
        step: 2,
        failing: &[],
        holds,
        moved: taken,
        faults: None,
    };
    let child = ReadyChild::new(alloc, b"abc", 16)?
        .giving(giving)
        .taking(taking);
    let spawner = MemorySpawner::new(alloc, one(alloc, child)?, 1, &[])?;
    Ok(spawner.marking(&counts.ends, &counts.faults))
}

#[test]
fn marks_count_bytes_ends_and_faults(rt: HostRuntime) -> Result<(), Fail> {
    let counts = Counts {
        given: Mark::new(),
        taken: Mark::new(),
        read_faults: Mark::new(),
        ends: Mark::new(),
        faults: Mark::new(),
    };
    let holds = [Hold {
        at: 0,
        until: Until::Reached(&counts.given, 3),
    }];
    let mut spawner = marked(rt.alloc(), &counts, &holds)?;
    assert_eq!(rt; visit(rt.alloc(), &mut spawner)?.as_str(), "!ab|c|+");
    assert_eq!(rt; (counts.given.count(), counts.taken.count()), (3, 3));
    assert_eq!(rt;
        (
            counts.read_faults.count(),
            counts.faults.count(),
            counts.ends.count()
        ),
        (1, 1, 1)
    );
    Ok(())
}

#[test]
fn a_spawner_without_room_goes_on_and_tells_nothing(rt: HostRuntime) -> Result<(), Fail> {
    let alloc = rt.alloc();
    let mut spawner = MemorySpawner::new(alloc, Vec::new(alloc), 1, &[])?;
    for is_told in [true, false] {
        assert_eq!(rt; visit(alloc, &mut spawner)?.as_str(), "+");
        assert_eq!(rt; spawner.asked().is_some(), is_told);
        assert_eq!(rt; spawner.ended().is_some(), is_told);
    }
    Ok(())
}

#[test]
fn a_child_that_was_not_made_ready_has_room_for_a_page(rt: HostRuntime) -> Result<(), Fail> {
    let alloc = rt.alloc();
    let mut spawner = MemorySpawner::new(alloc, Vec::new(alloc), 1, &[])?;
    let mut pipes = started(&mut spawner)?;
    assert_eq!(rt; pipes.sink.write(&[7; 4_096]), Write::Wrote(4_096));
    assert_eq!(rt; pipes.sink.bytes().map(|bytes| bytes.len()), Some(4_096));
    assert_eq!(rt; pipes.sink.write(b"x"), Write::Wrote(1));
    assert!(rt; pipes.sink.bytes().is_none());
    assert_eq!(rt; pipes.sink.faults(), 0);
    Ok(())
}
