//! What leaves a helper as it is.
ghost use Rattle.helper_book.specs.Apart.{OthersLeave, ReloadsLeave};

/// What leaves a helper as it is: entries of other slots, of neighbours and of the daemon, lines that aren't taken, and
/// reloads that aren't done, or that leave the slot's process as it was.
pub fn others_leave()
    ensures entries { OthersLeave }
    ensures reloads { ReloadsLeave }
{}
