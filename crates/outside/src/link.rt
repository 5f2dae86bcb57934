//! A connection to a peer.
ghost use Rattle.std.specs.Prelude.{◌≡◌, ◌<◌, List, ℕ, Bool, length};
ghost use Rattle.std.specs.declared.option.Option.{Option};
ghost use Rattle.route_values.specs.declared.settings.Settings.{Settings};

use crate::sink::Write;

/// What one call of a link gave.
#[derive(Clone, Copy, Debug, PartialEq, Eq)]
pub enum Recv {
    /// So many bytes, at the front of the buffer: at least one.
    Got(usize),
    /// There are no more: the peer has closed its side.
    End,
    /// Nothing came while this call looked.
    Quiet,
    /// The call failed and gave nothing. The link counted one fault.
    Failed,
}

/// A connection to a peer, which gives and takes bytes.
pub trait Link {
    ghost use Rattle.outside.specs.Calls.{Writes, WriteCounts};
    ghost use Rattle.outside.specs.Receiving.{Receives, Notes, told_length, Closes, RecvCounts};

    /// The bytes given so far, where it tells them.
    ghost given: { Self → Option (List ℕ) };

    /// The bytes taken so far, where it tells them.
    ghost taken: { Self → Option (List ℕ) };

    /// For each quiet call how many bytes had been given before it, where it tells them.
    ghost quiets: { Self → Option (List ℕ) };

    /// Whether it has answered that there are no more bytes.
    ghost ended: { Self → Bool };

    /// How often it has failed. A count of 2^64 - 1 stays there.
    ghost faults: { Self → ℕ };

    /// The settings that it was dialled with, where it tells them.
    ghost dialled: { Self → Option Settings };

    /// Puts bytes at the front of the buffer, which isn't empty, and says how many.
    ///
    /// It may wait a little for them. `Quiet` comes only where nothing stood ready when it looked
    /// last. `Failed` counts one fault, and the other answers none.
    fn recv(&mut self, into: &mut [u8]) -> Recv
        requires { 0 < length into.old }
        ensures bytes { Receives (given self.old) (given self.new) into.new result }
        ensures quiet { Notes (quiets self.old) (told_length (given self.old)) (quiets self.new)
            result }
        ensures end { Closes (ended self.old) (ended self.new) result }
        ensures cause { RecvCounts (faults self.old) (faults self.new) result }
        ensures taken { taken self.new ≡ taken self.old }
        ensures dialled { dialled self.new ≡ dialled self.old };

    /// Takes bytes from the front of the piece, which isn't empty, and says how many.
    ///
    /// It may wait until the peer has made room. `Failed` counts one fault, and `Wrote` none.
    fn send(&mut self, piece: &[u8]) -> Write
        requires { 0 < length piece.now }
        ensures bytes { Writes (taken self.old) (taken self.new) piece.now result }
        ensures cause { WriteCounts (faults self.old) (faults self.new) result }
        ensures given { given self.new ≡ given self.old }
        ensures quiets { quiets self.new ≡ quiets self.old }
        ensures ended { ended self.new ≡ ended self.old }
        ensures dialled { dialled self.new ≡ dialled self.old };
}
