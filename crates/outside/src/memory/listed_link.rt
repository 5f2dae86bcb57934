//! A link in memory that fails at some of its calls.
ghost use Rattle.std.specs.Prelude.{◌≡◌, ◌<◌, [], Some, true, false, length};
ghost use Rattle.std.specs.Option.{option_copied};

use crate::link::{Link, Recv};
use crate::memory::fault_plan::FaultPlan;
use crate::memory::holds::{Holds, Passage};
use crate::memory::mark::Mark;
use crate::memory::script::{Script, mark_one};
use crate::memory::sure_link::SureLink;
use crate::sink::Write;
use route_values::Settings;

/// Gives its content from the front and keeps what it takes, as its two scripts say.
///
/// Behind its content it ends, or is quiet for good. A call that looks in vain at what holds it
/// fails.
#[derive(Drop)]
pub struct MemoryLink<'a> {
    link: SureLink<'a>,
    recvs: FaultPlan<'a>,
    sends: FaultPlan<'a>,
    given: Holds<'a>,
    taken: Holds<'a>,
    faults: u64,
    recvs_marked: Option<&'a Mark>,
    sends_marked: Option<&'a Mark>,
}

impl<'a> MemoryLink<'a> {
    ghost use Rattle.outside.specs.Links.{sure_of};

    // A link with these scripts.
    pub(crate) fn new(link: SureLink<'a>, giving: Script<'a>, taking: Script<'a>) -> Self
        ensures link { sure_of result ≡ link.entry }
        ensures faults { ⟦<Self as Link>⟧.faults result ≡ 0 }
    {
        MemoryLink {
            link,
            recvs: FaultPlan::new(giving.failing),
            sends: FaultPlan::new(taking.failing),
            given: Holds::new(giving.holds, None, giving.moved),
            taken: Holds::new(taking.holds, None, taking.moved),
            faults: 0,
            recvs_marked: giving.faults,
            sends_marked: taking.faults,
        }
    }

    /// The settings that it was dialled with.
    pub fn dialled(&self) -> &Settings
        ensures { ⟦<Self as Link>⟧.dialled self.now ≡ Some result.now }
    {
        self.link.dialled()
    }

    /// The bytes taken so far, where there was room for all.
    pub fn bytes(&self) -> Option<&[u8]>
        ensures { option_copied result ≡ ⟦<Self as Link>⟧.taken self.now }
    {
        self.link.bytes()
    }

    /// For each quiet call how many bytes had been given before it, where there was room for all.
    pub fn quiets(&self) -> Option<&[usize]>
        ensures { option_copied result ≡ ⟦<Self as Link>⟧.quiets self.now }
    {
        self.link.quiets()
    }

    /// How often it has failed. A count of 2^64 - 1 stays there.
    pub fn faults(&self) -> u64
        ensures { result ≡ ⟦<Self as Link>⟧.faults self.now }
    {
        self.faults
    }
}

impl Link for MemoryLink<'_> {
    ghost given = { λ l. ⟦<SureLink<'static> as Link>⟧.given l.link };

    ghost taken = { λ l. ⟦<SureLink<'static> as Link>⟧.taken l.link };

    ghost quiets = { λ l. ⟦<SureLink<'static> as Link>⟧.quiets l.link };

    ghost ended = { λ l. ⟦<SureLink<'static> as Link>⟧.ended l.link };

    ghost faults = { λ l. l.faults };

    ghost dialled = { λ l. ⟦<SureLink<'static> as Link>⟧.dialled l.link };

    #[tactic(auto, using(crate::proofs::GivingLemmas::receives_front))]
    fn recv(&mut self, into: &mut [u8]) -> Recv {
        if self.recvs.strikes() {
            mark_one(self.recvs_marked);
            self.faults = self.faults.saturating_add(1);
            return Recv::Failed;
        }
        let room = match self.given.pass() {
            Passage::Free(room) => room,
            Passage::Killed => usize::MAX,
            Passage::Missed => {
                mark_one(self.recvs_marked);
                self.faults = self.faults.saturating_add(1);
                return Recv::Failed;
            }
        };
        let room = room.min(into.len());
        match self.link.recv(&mut into[..room]) {
            Recv::Got(count) => {
                self.given.count(count);
                Recv::Got(count)
            }
            Recv::End => Recv::End,
            Recv::Quiet => Recv::Quiet,
            Recv::Failed => unreachable!(),
        }
    }

    fn send(&mut self, piece: &[u8]) -> Write {
        if self.sends.strikes() {
            mark_one(self.sends_marked);
            self.faults = self.faults.saturating_add(1);
            return Write::Failed;
        }
        let room = match self.taken.pass() {
            Passage::Free(room) => room,
            Passage::Killed => usize::MAX,
            Passage::Missed => {
                mark_one(self.sends_marked);
                self.faults = self.faults.saturating_add(1);
                return Write::Failed;
            }
        };
        let room = room.min(piece.len());
        match self.link.send(&piece[..room]) {
            Write::Wrote(count) => {
                self.taken.count(count);
                Write::Wrote(count)
            }
            Write::Failed => unreachable!(),
        }
    }
}
