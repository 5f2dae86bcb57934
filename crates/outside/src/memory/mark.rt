//! How far something has come.
use std::sync::atomic::{AtomicBool, AtomicU64, Ordering};

/// A number that an object in memory counts up while it is in use, for others to look at: bytes
/// that went through, children that have ended, faults, or waits. A clock in memory reads one too.
#[derive(Debug, Drop)]
pub struct Mark {
    count: AtomicU64,
    missed: AtomicBool,
}

impl Mark {
    /// Nothing was counted.
    pub fn new() -> Self {
        Mark {
            count: AtomicU64::new(0),
            missed: AtomicBool::new(false),
        }
    }

    /// How far it has come.
    pub fn count(&self) -> u64 {
        self.count.load(Ordering::SeqCst)
    }

    /// Counts so many more.
    pub fn add(&self, more: u64) {
        self.count.fetch_add(more, Ordering::SeqCst);
    }

    /// Whether a call has waited for it in vain. Then its test has failed.
    pub fn was_missed(&self) -> bool {
        self.missed.load(Ordering::SeqCst)
    }

    // Tells that a call has waited for it in vain.
    pub(crate) fn miss(&self) {
        self.missed.store(true, Ordering::SeqCst);
    }
}
