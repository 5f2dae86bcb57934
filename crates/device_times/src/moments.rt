//! Moments, and what is printed of many times.

use outside::Clock;
use outside_std::SystemClock;
use std::test::Fail;
use std::{hint, time};

const MOMENTS: u64 = 1_000_000;

/// The time in nanoseconds, from an arbitrary start.
pub fn nanos<R: time::Clock>(rt: &R) -> u64 {
    match rt.monotonic() {
        Ok(time) => u64::try_from(time.as_nanos()).unwrap_or(u64::MAX),
        Err(_) => 0,
    }
}

/// Prints what a moment of the workers' clock costs.
pub fn time_moments<R: time::Clock + Eprint + Sync>(rt: &R) -> Result<(), Fail> {
    let clock = SystemClock::new(rt);
    let start = nanos(rt);
    for _ in 0..MOMENTS {
        hint::black_box(clock.now());
    }
    let each = nanos(rt).saturating_sub(start) / MOMENTS;
    eprintln!(rt; "a moment: {each} ns")?;
    Ok(())
}

/// Prints the middle, the 99th of a hundred and the greatest of these times in nanoseconds.
pub fn print_times<R: Eprint>(rt: &R, name: &str, mut took: Vec<u64>) -> Result<(), Fail> {
    took.sort_unstable();
    let p50 = took.get(took.len() / 2).copied().unwrap_or(0);
    let p99 = took.get(took.len() / 100 * 99).copied().unwrap_or(0);
    let most = took.last().copied().unwrap_or(0);
    eprintln!(rt; "{name}: p50 {p50} ns, p99 {p99} ns, most {most} ns")?;
    Ok(())
}
