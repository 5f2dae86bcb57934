//! The system's monotonic clock.
ghost use Rattle.std.specs.Prelude.{None};

use outside::Clock;
use std::time;

/// The time since the system's start, which never goes back. It reads 0 where the system gives no
/// time.
#[derive(Clone, Copy)]
pub struct SystemClock<R> {
    rt: R,
}

impl<R: time::Clock + Copy + Send + Sync> SystemClock<R> {
    /// The clock that the runtime reaches.
    pub fn new(rt: R) -> Self {
        SystemClock { rt }
    }
}

impl<R: time::Clock + Copy + Send + Sync> Clock for SystemClock<R> {
    ghost moments = { λ _. None };

    fn now(self) -> u64 {
        match self.rt.monotonic() {
            Ok(time) => u64::try_from(time.as_millis()).unwrap_or(u64::MAX),
            Err(_) => 0,
        }
    }
}
