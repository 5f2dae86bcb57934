//! What checks whether a service is well.
ghost use Rattle.std.specs.Prelude.{Some, List};
ghost use Rattle.std.specs.declared.option.Option.{Option};

/// What a check found.
#[derive(Clone, Copy, Debug, PartialEq, Eq)]
pub enum Outcome {
    /// The service is well.
    Up,
    /// It isn't, or that couldn't be found out.
    Down,
}

/// What checks by a program whether a service is well.
pub trait Probe {
    ghost use Rattle.outside.specs.Probing.{Checked, checked};
    ghost use Rattle.outside.specs.Ended.{Gathers};

    /// The checks so far, in order, where it tells them.
    ghost checks: { Self → Option (List Checked) };

    /// Checks once, by a program. Its words stand one behind the other with a zero byte between
    /// them, and the first names it. The call may wait.
    fn check(&mut self, run: &[u8]) -> Outcome
        ensures { Gathers (checks self.old) (checks self.new) (Some (checked run.now result)) };
}
