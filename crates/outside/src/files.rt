//! Files that are opened by path.
ghost use Rattle.std.specs.Prelude.{◌≡◌, List, ℕ};
ghost use Rattle.std.specs.declared.option.Option.{Option};

use crate::source::Source;

/// What opening a file gave.
#[derive(Debug, Drop)]
pub enum Opened<S> {
    /// A source of the file's bytes, from the front. It goes back by `Files::give_back`.
    Open(S),
    /// The file wasn't opened. One fault was counted.
    Failed,
}

/// What opens files.
pub trait Files {
    ghost use Rattle.outside.specs.Opening.{OpenCounts, IsFresh, HasContent, CountsSource};
    ghost use Rattle.outside.specs.Lent.{OpenLends, TakesBack};

    /// An opened file.
    type Source: Source + Drop + Send;

    /// The content by path, where it tells it. No call changes it.
    ghost content: { Self → Option (List ℕ → List ℕ) };

    /// How often it has failed, its sources included once they were given back. A count of
    /// 2^64 - 1 stays there.
    ghost faults: { Self → ℕ };

    /// How many of the sources that it opened are out and not yet given back, where it tells it.
    ghost lent: { Self → Option ℕ };

    /// Opens the file at a path.
    ///
    /// The source has given nothing, hasn't ended and has no faults. Where the content is told, it
    /// has the whole content of the path left to give. `Failed` counts one fault, and `Open` none.
    fn open(&mut self, path: &str) -> Opened<Self::Source>
        ensures content { content self.new ≡ content self.old }
        ensures cause { OpenCounts (faults self.old) (faults self.new) result }
        ensures lends { OpenLends (lent self.old) (lent self.new) result }
        ensures fresh { IsFresh Self.Source.given Self.Source.ended Self.Source.faults result }
        ensures holds { HasContent (content self.old) path.now Self.Source.left result };

    /// Takes a source back. One fault is counted where the source has faults, however many, and
    /// else none.
    fn give_back(&mut self, source: Self::Source)
        ensures content { content self.new ≡ content self.old }
        ensures cause { CountsSource (faults self.old) (faults self.new)
            (Self.Source.faults source) }
        ensures back { TakesBack (lent self.old) (lent self.new) };
}
