//! The laws of cutting.
ghost use Rattle.frame_cutter.specs.Chunking.{Begins, Takes, Passes, Widens, CutsAll, FramesStay};
ghost use Rattle.frame_cutter.specs.Chunking.{FaultsStay};
ghost use Rattle.frame_cutter.specs.Texts.{FramesAreText, TextsAreFrames};

/// The messages of a stream don't depend on the pieces in which it came: those that a cutter has passed, and then those
/// of the bytes that it still holds, are the messages of all bytes that it took. The function does nothing: its
/// contract is the law.
///
/// - `begins`, `takes`, `passes`, `widens`: what a cutter has taken and passed, at the beginning and behind each call.
/// - `cuts_all`: what it has passed, and then the messages of what it holds, are the messages of what it took.
/// - `frames_stay`, `faults_stay`: more bytes change no message before them, and nothing at all behind a fault.
pub fn any_chunking()
    ensures begins { Begins }
    ensures takes { Takes }
    ensures passes { Passes }
    ensures widens { Widens }
    ensures cuts_all { CutsAll }
    ensures frames_stay { FramesStay }
    ensures faults_stay { FaultsStay }
{}

/// What is cut off the front is a message as RFC 4271, section 4.1, lays it out, and each message so laid out is cut
/// off. The function does nothing: its contract is the law.
pub fn frames_are_texts()
    ensures found { FramesAreText }
    ensures only { TextsAreFrames }
{}
