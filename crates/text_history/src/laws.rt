//! The law of additions.
ghost use Rattle.text_history.specs.Laws.{EncodingsGoOn, ScriptsGoOn};

/// What some items leave of a history, and then what one more adds, is what all of them leave. The function does
/// nothing: its contract is the law.
///
/// - `scripts`: the items are the lines of a script.
/// - `encodings`: they are neighbours whose sessions come up, lines of a helper, or slots whose messages are cut.
pub fn histories_go_on()
    ensures scripts { ScriptsGoOn }
    ensures encodings { EncodingsGoOn }
{}
