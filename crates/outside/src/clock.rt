//! The time.
ghost use Rattle.std.specs.Prelude.{ℕ, Bool};
ghost use Rattle.std.specs.declared.option.Option.{Option};

/// A clock. It can be copied, and each copy reads the same moments, in any thread.
pub trait Clock: Copy + Send + Sync {
    ghost use Rattle.outside.specs.Moments.{MayRead};

    /// The moments that it may read, by a test of a number, where it tells them.
    ghost moments: { Self → Option (ℕ → Bool) };

    /// The moment, in milliseconds from an arbitrary start.
    fn now(self) -> u64
        ensures { MayRead (moments self) result };
}
