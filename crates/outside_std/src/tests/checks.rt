use super::{SOON, millis_since};
use crate::ProcessProbe;
use outside::{Outcome, Probe};
use std::test::Fail;
use std::time::Instant;

// A limit that none of these checks comes near.
const LIMIT: u64 = 60_000;

// Programs, and what each finds. `sh` ends by itself, by status 3 or by a signal.
const CHECKS: [(&[u8], Outcome); 6] = [
    (b"/bin/true", Outcome::Up),
    (b"/bin/false", Outcome::Down),
    (b"/bin/sh\0-c\0exit 3", Outcome::Down),
    (b"/bin/sh\0-c\0kill -9 $$", Outcome::Down),
    (b"/nonexistent/check", Outcome::Down),
    (b"", Outcome::Down),
];

#[test]
fn a_check_finds_up_where_its_program_ends_with_status_0(rt: HostRuntime) -> Result<(), Fail> {
    let mut probe = ProcessProbe::new(&rt, rt.alloc(), LIMIT);
    'checks: for (run, found) in CHECKS {
        assert_eq!(rt; probe.check(run), found, "{run:?}");
    }
    Ok(())
}

#[test]
fn a_check_that_hangs_is_killed_and_finds_down(rt: HostRuntime) -> Result<(), Fail> {
    let mut probe = ProcessProbe::new(&rt, rt.alloc(), 100);
    let start = Instant::now(&rt)?;
    assert_eq!(rt; probe.check(super::SLEEP), Outcome::Down);
    let took = millis_since(&rt, &start)?;
    assert!(rt; took >= 100 && took < SOON, "{took}");
    Ok(())
}

#[test]
fn what_a_check_writes_is_dropped_and_it_reads_nothing(rt: HostRuntime) -> Result<(), Fail> {
    let mut probe = ProcessProbe::new(&rt, rt.alloc(), LIMIT);
    assert_eq!(rt;
        probe.check(b"/bin/sh\0-c\0cat && echo a line"),
        Outcome::Up
    );
    Ok(())
}
