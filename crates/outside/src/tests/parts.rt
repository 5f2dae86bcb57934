use crate::*;
use std::test::Fail;
use std::thread;

#[test]
fn a_clock_stands_until_it_is_moved(rt: HostRuntime) {
    let (hand, hundreds) = (Mark::new(), Mark::new());
    let clock = MemoryClock::new(&hand);
    let counted = [CountedWait {
        ms: 100,
        mark: &hundreds,
    }];
    let pause = MemoryPause::new(&counted);
    pause.at(Seat::Keeper).wait(100);
    assert_eq!(rt;
        (StillClock.now(), clock.now(), hundreds.count()),
        (0, 0, 1)
    );
    let moving = pause.moving(&hand, 50);
    moving.wait(100);
    moving.rest(5);
    moving.close();
    assert_eq!(rt; (clock.now(), hundreds.count()), (100, 2));
}

#[test]
fn threads_share_a_pause_and_a_clock(rt: HostRuntime) {
    let hand = Mark::new();
    let clock = MemoryClock::new(&hand);
    let pause = MemoryPause::new(&[]).moving(&hand, 5);
    thread::join(&rt, || pause.wait(1), || pause.ring());
    assert_eq!(rt; clock.now(), 5);
}

// Takes what may go to another thread.
fn cross<T: Send>(value: T) -> T {
    value
}

#[test]
fn spawners_and_dialers_may_go_to_other_threads(rt: HostRuntime) -> Result<(), Fail> {
    let alloc = rt.alloc();
    let spawner = cross(MemorySpawner::new(alloc, Vec::new(alloc), 0, &[])?);
    let dialer = cross(MemoryDialer::new(alloc, Vec::new(alloc), 0, &[])?);
    assert_eq!(rt; (spawner.faults(), dialer.faults()), (0, 0));
    Ok(())
}

#[test]
fn a_crew_refuses_the_listed_jobs_and_counts_them(rt: HostRuntime) {
    let mut plan = CrewPlan::new(&[1, 3]);
    for (job, refused, faults) in [(0, false, 0), (1, true, 1), (2, false, 1), (3, true, 2)] {
        assert_eq!(rt; plan.refuses(job), refused, "job {job}");
        assert_eq!(rt; plan.faults(), faults, "job {job}");
    }
}

#[test]
fn an_ear_may_ignore_what_it_is_told(rt: HostRuntime) -> Result<(), Fail> {
    let mut ear = NoEar;
    ear.began(&rt, 0, 1);
    ear.heard(&rt, 0, &[0; 4]);
    ear.ended(&rt, 0);
    ear.closed(&rt, 0);
    assert_eq!(rt; ear, NoEar);
    Ok(())
}
