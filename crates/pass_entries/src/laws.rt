//! The law of a pass's entries.
ghost use Rattle.std.specs.Prelude.{List};
ghost use Rattle.book_gate.specs.Calls.{Enters};
ghost use Rattle.book_gate.specs.Known.{Known};
ghost use Rattle.pass_entries.specs.Making.{Makes, MakesLearned, MakesMore, MakesNone, MakesOne};

use book_gate::Held;

/// The entries that a pass makes add up. The function does nothing: its contract is the law.
///
/// - `none`: a pass that makes no call makes no entry.
/// - `one`: a call makes its own entry.
/// - `learned`: a pass that learns makes no entry.
/// - `more`: what a pass makes from one moment to a second, and then to a third, is what it makes from the first to the
///   third, in order.
pub fn entries_add_up<T: Held>()
    ensures none { MakesNone T.Start T.Entry }
    ensures one { MakesOne T.law }
    ensures learned { MakesLearned T.law }
    ensures more { MakesMore T.Start T.Entry }
{}
