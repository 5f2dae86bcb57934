//! Services that are watched over devices in memory.
use crate::{Unwatched, read_health, watch};
use outside::{CountedWait, Mark, MemoryPause, MemoryProbe, MemorySink, Outcome};
use std::alloc::Global;
use std::test::Fail;

const U: Outcome = Outcome::Up;

const D: Outcome = Outcome::Down;

// A file, the outcomes of its checks, and what is written.
const WATCHES: [(&str, &[Outcome], &str); 4] = [
    (
        "rise 2; fall 2; turns 6; run /bin/check; prefix 10.0.0.0/24;",
        &[U, D, U, U, D, D],
        "disable-ack\nannounce attributes next-hop self med 100 nlri 10.0.0.0/24\n\
         withdraw attributes nlri 10.0.0.0/24\n",
    ),
    (
        "turns 1; run /bin/check; prefix 10.0.0.0/24; down med 1000;",
        &[D],
        "disable-ack\nannounce attributes next-hop self med 1000 nlri 10.0.0.0/24\n",
    ),
    (
        "rise 1; fall 1; turns 3; run /bin/check; prefix 10.0.0.0/24; down med 1000;",
        &[U, D, U],
        "disable-ack\nannounce attributes next-hop self med 1000 nlri 10.0.0.0/24\n\
         announce attributes next-hop self med 100 nlri 10.0.0.0/24\n\
         announce attributes next-hop self med 1000 nlri 10.0.0.0/24\n\
         announce attributes next-hop self med 100 nlri 10.0.0.0/24\n",
    ),
    (
        "turns 4; run /bin/check; prefix 10.0.0.0/24;",
        &[D, U, U, D],
        "disable-ack\n",
    ),
];

// What is written of a file and outcomes, and how many pauses of its length there were.
fn written(
    alloc: Global,
    text: &str,
    outcomes: &[Outcome],
    failing: &[u64],
) -> Result<(Result<(), Unwatched>, String, u64), Fail> {
    let health = read_health(alloc, text.as_bytes())?;
    let pauses = Mark::new();
    let counted = [CountedWait {
        ms: health.every,
        mark: &pauses,
    }];
    let mut probe = MemoryProbe::new(alloc, outcomes, outcomes.len())?;
    let mut output = MemorySink::new(alloc, 1_000, failing)?;
    let answer = watch(
        alloc,
        &health,
        &mut probe,
        MemoryPause::new(&counted),
        &mut output,
    );
    let mut text = String::new(alloc);
    text.push_str(str::from_utf8(output.bytes().unwrap_or(b"lost"))?)?;
    Ok((answer, text, pauses.count()))
}

#[test]
fn a_line_is_written_at_each_change(rt: HostRuntime) -> Result<(), Fail> {
    'watches: for (text, outcomes, wanted) in WATCHES {
        let (answer, lines, pauses) = written(rt.alloc(), text, outcomes, &[])?;
        assert_eq!(rt; answer, Ok(()), "{text}");
        assert_eq!(rt; lines.as_str(), wanted, "{text}");
        assert_eq!(rt; pauses, outcomes.len() as u64 - 1, "{text}");
    }
    Ok(())
}

#[test]
fn a_watch_ends_at_the_write_that_fails(rt: HostRuntime) -> Result<(), Fail> {
    let (text, outcomes, wanted) = WATCHES[0];
    'writes: for failing in 0..3 {
        let (answer, lines, _) = written(rt.alloc(), text, outcomes, &[failing])?;
        assert_eq!(rt; answer, Err(Unwatched::Write));
        assert!(rt; wanted.starts_with(lines.as_str()) && lines.len() < wanted.len());
        assert_eq!(rt; lines.as_str().matches('\n').count() as u64, failing);
    }
    Ok(())
}
