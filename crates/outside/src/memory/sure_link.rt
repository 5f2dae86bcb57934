//! A link in memory that never fails.
ghost use Rattle.std.specs.Prelude.{◌≡◌, ◌<◌, [], Some, false, length};
ghost use Rattle.std.specs.Option.{option_copied};
ghost use Rattle.outside.specs.Kept.{kept_bytes};

use crate::link::{Link, Recv};
use crate::memory::kept::Kept;
use crate::memory::roll::Roll;
use crate::memory::sure_source::SureSource;
use crate::sink::Write;
use crate::source::{Read, Source};
use route_values::Settings;
use std::thread;

/// Gives its content from the front and keeps what it takes, and never fails.
///
/// Behind its content it ends, or is quiet for good. A call that finds no room for what it records
/// does its work all the same, and from then on the link doesn't tell the list that lacks it.
#[derive(Drop)]
pub struct SureLink<'a> {
    dialled: Settings,
    supply: SureSource<'a>,
    ends: bool,
    ended: bool,
    quiets: Roll<usize>,
    kept: Kept,
    step: usize,
}

impl<'a> SureLink<'a> {
    ghost use Rattle.outside.specs.Links.{link_left};
    ghost use Rattle.outside.specs.Supply.{rest_of};

    // A link dialled with these settings, which has given and taken nothing. `quiets` and `kept`
    // are what it records in.
    pub(crate) fn new(
        dialled: &Settings,
        supply: SureSource<'a>,
        ends: bool,
        step: usize,
        quiets: Roll<usize>,
        kept: Kept,
    ) -> Self
        ensures given { ⟦<Self as Link>⟧.given result
            ≡ ⟦<SureSource<'static> as Source>⟧.given supply.entry }
        ensures left { link_left result ≡ rest_of supply.entry }
        ensures taken { ⟦<Self as Link>⟧.taken result ≡ kept_bytes kept }
        ensures quiets { ⟦<Self as Link>⟧.quiets result ≡ quiets }
        ensures ended { ⟦<Self as Link>⟧.ended result ≡ false }
        ensures dialled { ⟦<Self as Link>⟧.dialled result ≡ Some dialled.now }
    {
        SureLink {
            dialled: *dialled,
            supply,
            ends,
            ended: false,
            quiets,
            kept,
            step,
        }
    }

    /// The settings that it was dialled with.
    pub fn dialled(&self) -> &Settings
        ensures { ⟦<Self as Link>⟧.dialled self.now ≡ Some result.now }
    {
        &self.dialled
    }

    /// The bytes taken so far, where there was room for all.
    pub fn bytes(&self) -> Option<&[u8]>
        ensures { option_copied result ≡ ⟦<Self as Link>⟧.taken self.now }
    {
        self.kept.bytes()
    }

    /// For each quiet call how many bytes had been given before it, where there was room for all.
    pub fn quiets(&self) -> Option<&[usize]>
        ensures { option_copied result ≡ ⟦<Self as Link>⟧.quiets self.now }
    {
        self.quiets.items()
    }
}

impl Link for SureLink<'_> {
    ghost use Rattle.outside.specs.Calls.{Writes, WriteCounts};
    ghost use Rattle.outside.specs.Receiving.{Receives, Notes, told_length, Closes, RecvCounts};
    ghost use Rattle.outside.specs.Links.{link_left, EndsEmpty};

    ghost given = { λ l. ⟦<SureSource<'static> as Source>⟧.given l.supply };

    ghost taken = { λ l. kept_bytes l.kept };

    ghost quiets = { λ l. l.quiets };

    ghost ended = { λ l. l.ended };

    ghost faults = { λ _. 0 };

    ghost dialled = { λ l. Some l.dialled };

    /// As `Link::recv`; it ends, and is quiet, only where it has given all of its content.
    #[tactic(auto, using(crate::proofs::ToldLemmas::item_grows))]
    fn recv(&mut self, into: &mut [u8]) -> Recv
        requires { 0 < length into.old }
        ensures bytes { Receives (⟦<Self as Link>⟧.given self.old)
            (⟦<Self as Link>⟧.given self.new) into.new result }
        ensures quiet { Notes (⟦<Self as Link>⟧.quiets self.old)
            (told_length (⟦<Self as Link>⟧.given self.old))
            (⟦<Self as Link>⟧.quiets self.new) result }
        ensures end { Closes (⟦<Self as Link>⟧.ended self.old)
            (⟦<Self as Link>⟧.ended self.new) result }
        ensures cause { RecvCounts 0 0 result }
        ensures taken { ⟦<Self as Link>⟧.taken self.new ≡ ⟦<Self as Link>⟧.taken self.old }
        ensures dialled { ⟦<Self as Link>⟧.dialled self.new ≡ ⟦<Self as Link>⟧.dialled self.old }
        ensures all { EndsEmpty (link_left self.old) result }
    {
        let given = self.supply.given();
        match self.supply.read(into) {
            Read::Got(count) => Recv::Got(count),
            Read::End if self.ends => {
                self.ended = true;
                Recv::End
            }
            Read::End => {
                self.quiets.add(given);
                thread::yield_now();
                Recv::Quiet
            }
            Read::Failed => unreachable!(),
        }
    }

    /// As `Link::send`; it takes the whole piece, as far as the step reaches.
    fn send(&mut self, piece: &[u8]) -> Write
        requires { 0 < length piece.now }
        ensures bytes { Writes (⟦<Self as Link>⟧.taken self.old)
            (⟦<Self as Link>⟧.taken self.new) piece.now result }
        ensures cause { WriteCounts 0 0 result }
        ensures given { ⟦<Self as Link>⟧.given self.new ≡ ⟦<Self as Link>⟧.given self.old }
        ensures quiets { ⟦<Self as Link>⟧.quiets self.new ≡ ⟦<Self as Link>⟧.quiets self.old }
        ensures ended { ⟦<Self as Link>⟧.ended self.new ≡ ⟦<Self as Link>⟧.ended self.old }
        ensures dialled { ⟦<Self as Link>⟧.dialled self.new ≡ ⟦<Self as Link>⟧.dialled self.old }
    {
        let count = piece.len().min(self.step.max(1));
        self.kept.keep(&piece[..count]);
        Write::Wrote(count)
    }
}
