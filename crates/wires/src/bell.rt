//! A bell that one thread waits at and any thread rings.

use crate::system::check;
use libc::net as c;
use libc::types::pollfd;
use os::FromRawFd;
use std::io;
use std::net::Net;
use std::os::fd::{AsFd, AsRawFd, OwnedFd, RawFd};
use std::sync::atomic::{AtomicBool, AtomicU64, Ordering};

// The state of a bell at which nobody waits and that nobody has rung.
const IDLE: u64 = 0;

// A thread waits.
const AWAITED: u64 = 1;

// Somebody has rung, and no wait has ended by it yet.
const RUNG: u64 = 2;

/// What ended a wait beside a descriptor.
#[derive(Clone, Copy, Debug, PartialEq, Eq)]
pub enum Woken {
    /// The descriptor is ready, or has an error to tell.
    Ready,
    /// The bell ended it, or the time is up.
    Quiet,
}

/// A bell that one thread at a time waits at and that any thread rings.
///
/// A ring while nobody waits ends the next wait at once, and further rings before that do nothing
/// more. A rest isn't ended by a ring, which stays for the next wait. A closed bell ends each wait
/// and each rest at once, for good. All times are in milliseconds; a wait may end earlier without a
/// ring. A time above 2^31 - 1 is taken for that.
///
/// To ring costs a load where the bell has been rung already, an exchange where nobody waits, and a
/// system call where somebody does.
#[derive(Debug, Drop)]
pub struct Bell {
    state: AtomicU64,
    closed: AtomicBool,
    // Two counters of the system, `eventfd(2)`: rings and the closing count up the first, at which
    // a wait polls, and the closing alone the second, at which a rest polls.
    rings: OwnedFd,
    closing: OwnedFd,
}

impl Bell {
    /// A bell that nobody has rung. Two descriptors are its own, and no child inherits them.
    pub fn new(_net: &impl Net) -> io::Result<Bell> {
        Ok(Bell {
            state: AtomicU64::new(IDLE),
            closed: AtomicBool::new(false),
            rings: counter()?,
            closing: counter()?,
        })
    }

    /// Ends the wait that is under way, or else the next.
    pub fn ring(&self) {
        if self.state.load(Ordering::SeqCst) == RUNG {
            return;
        }
        if self.state.swap(RUNG, Ordering::SeqCst) == AWAITED {
            count_up(&self.rings);
        }
    }

    /// Ends the wait or rest that is under way, and each later one.
    pub fn close(&self) {
        self.closed.store(true, Ordering::SeqCst);
        count_up(&self.rings);
        count_up(&self.closing);
    }

    /// Whether it was closed.
    pub fn is_closed(&self) -> bool {
        self.closed.load(Ordering::SeqCst)
    }

    /// Waits for a ring.
    pub fn wait(&self, millis: u32) {
        if self.begins() {
            let mut asked = [asks(self.rings.as_raw_fd(), c::POLLIN)];
            c::poll(&mut asked, timeout(millis));
            self.ends(asked[0].revents != 0);
        }
    }

    /// Rests, which no ring ends.
    pub fn rest(&self, millis: u32) {
        let mut asked = [asks(self.closing.as_raw_fd(), c::POLLIN)];
        c::poll(&mut asked, timeout(millis));
    }

    /// Waits until the descriptor can be read, or for a ring.
    pub fn wait_to_read<F: AsFd>(&self, file: &F, millis: u32) -> Woken {
        if !self.begins() {
            return Woken::Quiet;
        }
        let fd = file.as_fd().as_raw_fd();
        let mut asked = [asks(fd, c::POLLIN), asks(self.rings.as_raw_fd(), c::POLLIN)];
        c::poll(&mut asked, timeout(millis));
        self.ends(asked[1].revents != 0);
        woken_by(asked[0])
    }

    /// Rests until the descriptor can be written, which no ring ends.
    pub fn rest_to_write<F: AsFd>(&self, file: &F, millis: u32) -> Woken {
        let fd = file.as_fd().as_raw_fd();
        let mut asked = [
            asks(fd, c::POLLOUT),
            asks(self.closing.as_raw_fd(), c::POLLIN),
        ];
        c::poll(&mut asked, timeout(millis));
        woken_by(asked[0])
    }

    // Whether a wait begins. A ring since the last one takes its place, and at a closed bell none begins.
    fn begins(&self) -> bool {
        let state = &self.state;
        let begun = state
            .compare_exchange(IDLE, AWAITED, Ordering::SeqCst, Ordering::SeqCst)
            .is_ok();
        if !begun || self.is_closed() {
            state.store(IDLE, Ordering::SeqCst);
            return false;
        }
        true
    }

    // Ends a wait. The counter is emptied where it was seen to be counted up. A ring that comes
    // between is counted later, and then ends the next wait.
    fn ends(&self, counted: bool) {
        self.state.store(IDLE, Ordering::SeqCst);
        if counted {
            libc::read(self.rings.as_raw_fd(), &mut [0; 8]);
        }
    }
}

// A counter of the system's, at 0.
fn counter() -> io::Result<OwnedFd> {
    let fd = c::eventfd(0, c::EFD_CLOEXEC | c::EFD_NONBLOCK);
    check(fd)?;
    Ok(unsafe { OwnedFd::from_raw_fd(fd) })
}

// Counts up by one, which ends each poll at the counter until it is read.
fn count_up(counter: &OwnedFd) {
    libc::write(counter.as_raw_fd(), &1u64.to_ne_bytes());
}

fn asks(fd: RawFd, events: i16) -> pollfd {
    pollfd {
        fd,
        events,
        revents: 0,
    }
}

fn woken_by(asked: pollfd) -> Woken {
    if asked.revents != 0 {
        Woken::Ready
    } else {
        Woken::Quiet
    }
}

// The time as C's `poll` takes it, where a number below 0 has no end.
fn timeout(millis: u32) -> i32 {
    i32::try_from(millis).unwrap_or(i32::MAX)
}
