//! A state that has a history, and the calls that may be made of it.
ghost use Rattle.std.specs.Prelude.{List};
ghost use Rattle.book_gate.specs.Histories.{Follows};

/// A state behind a gate.
pub trait Held {
    /// What the state was opened with.
    type Start;

    /// What a history keeps of a call: its arguments and its answer.
    type Entry;

    /// The state stands for these entries, from this start.
    ghost stands: { Self → Self.Start → List Self.Entry → Type 0 };

    /// The entry may come behind these entries.
    ghost law: { Self.Start → List Self.Entry → Self.Entry → Type 0 };
}

/// A call of a state. Whatever a call needs of the state has to hold of each state of that type.
pub trait Call<T: Held> {
    /// What the caller is told.
    type Answer;

    /// The call may be made. It speaks of the call alone.
    ghost can: { Self → Type 0 };

    /// What the history keeps of the call and its answer.
    ghost entry: { Self → Self.Answer → T.Entry };

    /// Makes the call. The history of the state gets the call's entry, which the law allows there.
    fn on(self, state: &mut T) -> Self::Answer
        requires { can self }
        ensures { Follows T.stands T.law state.old state.new (entry self result) };
}
