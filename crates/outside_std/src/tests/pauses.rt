use super::{LONG, SOON, millis_since};
use crate::*;
use outside::{Clock, Pause, Seat, Spawned, Spawner};
use std::sync::Barrier;
use std::sync::atomic::{AtomicU64, Ordering};
use std::test::Fail;
use std::thread;
use std::time::Instant;

// A seat of each kind.
const SEATS: [Seat; 4] = [
    Seat::Reader(1),
    Seat::Replier(1),
    Seat::Talker(1),
    Seat::Keeper,
];

#[test]
fn a_ring_ends_the_next_wait_of_its_seat_and_no_rest(rt: HostRuntime) -> Result<(), Fail> {
    let board = Board::new(rt.alloc(), &rt, 2, 2)?;
    let keeper = BoardPause::new(&board, Seat::Keeper);
    for seat in SEATS {
        let pause = keeper.at(seat);
        pause.ring();
        pause.wait(LONG);
        let start = Instant::now(&rt)?;
        pause.wait(20);
        pause.ring();
        pause.rest(20);
        assert!(rt; millis_since(&rt, &start)? >= 40, "{seat:?}");
        pause.wait(LONG);
    }
    Ok(())
}

#[test]
fn a_ring_is_for_its_seat_alone_and_no_seat_is_none(rt: HostRuntime) -> Result<(), Fail> {
    let board = Board::new(rt.alloc(), &rt, 2, 2)?;
    let keeper = BoardPause::new(&board, Seat::Keeper);
    for seat in SEATS {
        keeper.at(seat).ring();
    }
    let start = Instant::now(&rt)?;
    keeper.at(Seat::Reader(0)).wait(20);
    keeper.at(Seat::Replier(0)).wait(20);
    keeper.at(Seat::Talker(0)).wait(20);
    assert!(rt; millis_since(&rt, &start)? >= 60);
    keeper.at(Seat::Talker(2)).wait(LONG);
    keeper.at(Seat::Reader(2)).rest(LONG);
    Ok(())
}

#[test]
fn a_closed_seat_neither_waits_nor_rests(rt: HostRuntime) -> Result<(), Fail> {
    let board = Board::new(rt.alloc(), &rt, 2, 2)?;
    let keeper = BoardPause::new(&board, Seat::Keeper);
    for seat in SEATS {
        let pause = keeper.at(seat);
        pause.close();
        pause.wait(LONG);
        pause.wait(LONG);
        pause.rest(LONG);
    }
    Ok(())
}

#[test]
fn a_ring_ends_a_wait_of_another_thread_and_closing_a_rest(rt: HostRuntime) -> Result<(), Fail> {
    let board = Board::new(rt.alloc(), &rt, 0, 1)?;
    let pause = BoardPause::new(&board, Seat::Talker(0));
    thread::join(&rt, || pause.wait(LONG), || pause.ring());
    thread::join(&rt, || pause.rest(LONG), || pause.close());
    Ok(())
}

#[test]
fn the_clock_goes_on(rt: HostRuntime) -> Result<(), Fail> {
    let clock = SystemClock::new(&rt);
    let board = Board::new(rt.alloc(), &rt, 0, 0)?;
    let first = clock.now();
    BoardPause::new(&board, Seat::Keeper).wait(20);
    let passed = clock.now().saturating_sub(first);
    assert!(rt; passed >= 20);
    assert!(rt; passed < SOON);
    Ok(())
}

#[test]
fn jobs_beside_each_other_may_wait_for_each_other(rt: HostRuntime) -> Result<(), Fail> {
    let met = AtomicU64::new(0);
    let barrier = Barrier::new(40);
    let mut jobs = [0u64; 40];
    work_beside(
        &rt,
        &mut jobs,
        &|place, job: &mut u64| {
            barrier.wait(&rt);
            met.fetch_add(1, Ordering::SeqCst);
            *job = place as u64;
        },
    );
    assert_eq!(rt; met.load(Ordering::SeqCst), 40);
    for (place, job) in jobs.iter().enumerate() {
        assert_eq!(rt; *job, place as u64);
    }
    Ok(())
}

#[test]
fn a_thread_may_own_the_devices_of_a_worker(rt: HostRuntime) -> Result<(), Fail> {
    let board = Board::new(rt.alloc(), &rt, 1, 1)?;
    let (Some(post), Some(bell)) = (board.post(0), board.bell(Seat::Talker(0))) else {
        return Err(Fail::from("no seats"));
    };
    let mut spawner = ProcessSpawner::new(&rt, rt.alloc(), post);
    let dialer = TcpDialer::new(&rt, bell);
    let (files, clock) = (StdFiles::new(&rt), SystemClock::new(&rt));
    let (spawner, (dialer, faults)) = thread::join(
        &rt,
        move || {
            if let Spawned::Open(pipes) = spawner.spawn(b"true") {
                spawner.give_back(pipes);
            }
            spawner
        },
        move || {
            let faults = files.faults().saturating_add(clock.now().min(0));
            (dialer, faults)
        },
    );
    assert_eq!(rt; (spawner.faults(), dialer.faults(), faults), (0, 0, 0));
    Ok(())
}
