//! The law of printed histories.
ghost use Rattle.std.specs.Prelude.{◌≡◌, ◌++◌, ℕ, List};
ghost use Rattle.book_history.specs.Entries.{Entry, History};
ghost use Rattle.answer_texts.specs.Shown.{all_of};

/// What is printed of a history goes on with what is printed of the entries that are added. The function does nothing:
/// its contract is the law.
pub fn texts_follow()
    ensures { (text : Entry → List ℕ) (added H : History)
        → all_of text (added ++ H) ≡ all_of text H ++ all_of text added }
{}
