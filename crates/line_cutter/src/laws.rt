//! The law of cutting.
ghost use Rattle.line_cutter.specs.Chunking.{Begins, Takes, Passes, Ends, LinesStay};

/// The lines of a stream don't depend on the pieces in which it came: those that a cutter has passed, and then the one
/// that stands, are the lines of all bytes that it took. The function does nothing: its contract is the law.
///
/// - `begins`, `takes`, `passes`: what a cutter has taken and passed, at the beginning and behind each call.
/// - `ends`: where no line stands, what it has passed are the lines of what it took.
/// - `lines_stay`: more bytes change no line before them.
pub fn any_chunking()
    ensures begins { Begins }
    ensures takes { Takes }
    ensures passes { Passes }
    ensures ends { Ends }
    ensures lines_stay { LinesStay }
{}
