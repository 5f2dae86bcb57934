//! Health checks over devices in memory.
use crate::{STATUS_ROOM, Status, exabgp_health};
use arrayvec::ArrayVec;
use outside::Outcome::{Down, Up};
use outside::{
    CountedWait, HeldFile, Mark, MemoryFiles, MemoryPause, MemoryProbe, MemorySink, Outcome,
};
use std::alloc::Global;
use std::test::Fail;

// The path of the file.
const FILE: &str = "health.conf";

// How a health check ended, what it wrote, the programs that it ran, and how many pauses there were.
#[derive(Drop)]
struct Ended {
    status: Status,
    output: String,
    checks: u64,
    pauses: u64,
}

// Runs a health check of a file, whose listed opens and writes fail.
fn run(
    alloc: Global,
    words: &[&str],
    text: &str,
    outcomes: &[Outcome],
    failing_opens: &[u64],
    failing_writes: &[u64],
) -> Result<Ended, Fail> {
    let held = [HeldFile {
        path: FILE,
        content: text.as_bytes(),
    }];
    let mut files = MemoryFiles::new(&held, failing_opens, &[]);
    let mut probe = MemoryProbe::new(alloc, outcomes, outcomes.len())?;
    let pauses = Mark::new();
    let counted = [CountedWait {
        ms: 5_000,
        mark: &pauses,
    }];
    let pause = MemoryPause::new(&counted);
    let mut sink = MemorySink::new(alloc, 1_000, failing_writes)?;
    let status = exabgp_health(alloc, words, &mut files, &mut probe, pause, &mut sink);
    let kept = probe.kept().ok_or("the probe has room")?;
    let by_file = kept
        .iter()
        .filter(
            |check| matches!(&check.run, Some(run) if run.as_slice() == b"/bin/check".as_slice()),
        )
        .count();
    let bytes = sink.bytes().ok_or("the sink has room")?;
    Ok(Ended {
        status,
        output: String::from_utf8(Vec::from_slice(alloc, bytes)?)?,
        checks: by_file as u64,
        pauses: pauses.count(),
    })
}

const TWICE: &str = "rise 2; fall 2; turns 6; run /bin/check; prefix 10.0.0.0/24;";

#[test]
fn a_route_is_announced_while_the_checks_succeed(rt: HostRuntime) -> Result<(), Fail> {
    let words = ["healthcheck", FILE];
    let found = [Up, Down, Up, Up, Down, Down];
    let ended = run(rt.alloc(), &words, TWICE, &found, &[], &[])?;
    assert_eq!(rt; ended.status, Status::Ok);
    assert_eq!(rt;
        ended.output.as_str(),
        "disable-ack\nannounce attributes next-hop self med 100 nlri 10.0.0.0/24\n\
         withdraw attributes nlri 10.0.0.0/24\n"
    );
    assert_eq!(rt; (ended.checks, ended.pauses), (6, 5));
    Ok(())
}

#[test]
fn a_worse_route_is_announced_at_first(rt: HostRuntime) -> Result<(), Fail> {
    let words = ["healthcheck", FILE];
    let text = "turns 1; run /bin/check; prefix 10.0.0.0/24; down med 1000;";
    let ended = run(rt.alloc(), &words, text, &[Down], &[], &[])?;
    assert_eq!(rt; ended.status, Status::Ok);
    assert_eq!(rt;
        ended.output.as_str(),
        "disable-ack\nannounce attributes next-hop self med 1000 nlri 10.0.0.0/24\n"
    );
    assert_eq!(rt; (ended.checks, ended.pauses), (1, 0));
    Ok(())
}

// Words, a file, opens and writes that fail, and the status with its line.
const ENDS: [(&[&str], &str, &[u64], &[u64], u8, &str); 7] = [
    (&[], TWICE, &[], &[], 2, "exabgp: usage\n"),
    (&["healthcheck"], TWICE, &[], &[], 2, "exabgp: usage\n"),
    (
        &["healthcheck", FILE, "x"],
        TWICE,
        &[],
        &[],
        2,
        "exabgp: usage\n",
    ),
    (&["check", FILE], TWICE, &[], &[], 2, "exabgp: usage\n"),
    (
        &["healthcheck", FILE],
        TWICE,
        &[0],
        &[],
        3,
        "exabgp: configuration not read\n",
    ),
    (
        &["healthcheck", FILE],
        "",
        &[],
        &[],
        4,
        "exabgp: configuration 0:0 missing\n",
    ),
    (
        &["healthcheck", FILE],
        TWICE,
        &[],
        &[0],
        7,
        "exabgp: write fault\n",
    ),
];

#[test]
fn a_health_check_that_ends_early_says_why(rt: HostRuntime) -> Result<(), Fail> {
    'ends: for (words, text, opens, writes, number, line) in ENDS {
        let ended = run(rt.alloc(), words, text, &[Up; 6], opens, writes)?;
        let mut said: ArrayVec<u8, STATUS_ROOM> = ArrayVec::new();
        ended.status.put_line(&mut said);
        assert_eq!(rt; ended.status.number(), number, "{words:?}");
        assert_eq!(rt; said.as_slice(), line.as_bytes(), "{words:?}");
        assert_eq!(rt; ended.output.as_str(), "", "{words:?}");
        assert_eq!(rt; ended.checks, 0, "{words:?}");
    }
    Ok(())
}
