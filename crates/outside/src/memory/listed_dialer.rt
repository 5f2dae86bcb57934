//! Links in memory, of which some aren't opened.
ghost use Rattle.std.specs.Prelude.{◌≡◌, [], Some, true, false, map, IfOk};
ghost use Rattle.std.specs.Option.{option_copied};
ghost use Rattle.outside.specs.Links.{memory_link_left, ready_bytes};
ghost use Rattle.outside.specs.Waiting.{TakesNext, waiting_in};

use crate::dialer::{Dialer, Dialled};
use crate::link::Link;
use crate::memory::attempts::Attempts;
use crate::memory::kept::Kept;
use crate::memory::listed_link::MemoryLink;
use crate::memory::mark::Mark;
use crate::memory::ready::ReadyLink;
use crate::memory::roll::Roll;
use crate::memory::script::Script;
use crate::memory::sure_link::SureLink;
use crate::memory::sure_source::SureSource;
use route_values::Settings;
use std::alloc::{AllocError, Global};

/// Opens the links that were made ready, in order, and fails at the calls that it was told.
///
/// Behind the last one it opens links that give nothing, end at once, and have room for 4,096
/// bytes. A call that finds no room for what it records does its work all the same, and from then
/// on the dialer doesn't tell the list that lacks it.
#[derive(Drop)]
pub struct MemoryDialer<'a> {
    alloc: Global,
    ready: Vec<ReadyLink<'a>>,
    ended: Roll<MemoryLink<'a>>,
    asked: Roll<Settings>,
    attempts: Attempts<'a>,
}

impl<'a> MemoryDialer<'a> {
    ghost use Rattle.outside.specs.Plan.{Plan};
    ghost use Rattle.outside.specs.Links.{dialer_plan, links_waiting};

    /// These links. It has room for so many calls, and as many ended links. The calls of `connect`
    /// of the numbers `failing` fail, counted from 0.
    pub fn new(
        alloc: Global,
        mut ready: Vec<ReadyLink<'a>>,
        room: usize,
        failing: &'a [u64],
    ) -> Result<Self, AllocError>
        ensures links { IfOk result (λ d. ⟦<Self as Dialer>⟧.links d ≡ Some []) }
        ensures asked { IfOk result (λ d. ⟦<Self as Dialer>⟧.asked d ≡ Some []) }
        ensures failed { IfOk result (λ d. ⟦<Self as Dialer>⟧.failed d ≡ Some 0) }
        ensures plan { IfOk result (λ d. dialer_plan d
            ≡ record { failing = failing.now; calls = 0; faults = 0 }) }
        ensures waiting { IfOk result (λ d. links_waiting d ≡ map ready_bytes ready.entry.items) }
    {
        ready.reverse();
        Ok(MemoryDialer {
            alloc,
            ended: Roll::new(alloc, room)?,
            asked: Roll::new(alloc, room)?,
            attempts: Attempts::new(failing),
            ready,
        })
    }

    /// The same dialer, which counts the links that have ended at one mark, and its faults at
    /// another.
    pub fn marking(mut self, ends: &'a Mark, faults: &'a Mark) -> Self
        ensures links { ⟦<Self as Dialer>⟧.links result ≡ ⟦<Self as Dialer>⟧.links self.entry }
        ensures asked { ⟦<Self as Dialer>⟧.asked result ≡ ⟦<Self as Dialer>⟧.asked self.entry }
        ensures failed { ⟦<Self as Dialer>⟧.failed result ≡ ⟦<Self as Dialer>⟧.failed self.entry }
        ensures plan { dialer_plan result ≡ dialer_plan self.entry }
        ensures waiting { links_waiting result ≡ links_waiting self.entry }
    {
        self.attempts.mark_at(ends, faults);
        self
    }

    /// How often it has failed, its links included once they were given back. A count of 2^64 - 1
    /// stays there.
    pub fn faults(&self) -> u64
        ensures { result ≡ ⟦<Self as Dialer>⟧.faults self.now }
    {
        self.attempts.faults()
    }

    /// How many calls of `connect` have failed, as far as 64 bits go.
    pub fn failed(&self) -> Option<u64>
        ensures { result ≡ ⟦<Self as Dialer>⟧.failed self.now }
    {
        self.attempts.failed()
    }

    /// What was asked for, where there was room for all.
    pub fn asked(&self) -> Option<&[Settings]>
        ensures { option_copied result ≡ ⟦<Self as Dialer>⟧.asked self.now }
    {
        self.asked.items()
    }

    /// The links that have ended, in order, where there was room for all.
    pub fn ended(&self) -> Option<&[MemoryLink<'a>]> {
        self.ended.items()
    }
}

// The next link that is ready, or one that ends at once.
fn next<'a>(alloc: Global, ready: &mut Vec<ReadyLink<'a>>, to: &Settings) -> MemoryLink<'a>
    ensures given { ⟦<MemoryLink<'static> as Link>⟧.given result ≡ Some [] }
    ensures taken { ⟦<MemoryLink<'static> as Link>⟧.taken result ≡ Some [] }
    ensures quiets { ⟦<MemoryLink<'static> as Link>⟧.quiets result ≡ Some [] }
    ensures ended { ⟦<MemoryLink<'static> as Link>⟧.ended result ≡ false }
    ensures faults { ⟦<MemoryLink<'static> as Link>⟧.faults result ≡ 0 }
    ensures dialled { ⟦<MemoryLink<'static> as Link>⟧.dialled result ≡ Some to.now }
    ensures order { TakesNext (waiting_in ready_bytes ready.old.items)
        (waiting_in ready_bytes ready.new.items) (memory_link_left result) }
{
    let Some(link) = ready.pop() else {
        let supply = SureSource::new(&[]);
        let quiets = Roll::none(alloc);
        let link = SureLink::new(to, supply, true, usize::MAX, quiets, Kept::own());
        return MemoryLink::new(link, Script::new(), Script::new());
    };
    link.open(to)
}

impl<'a> Dialer for MemoryDialer<'a> {
    ghost use Rattle.outside.specs.Ended.{link_of, Gathers};
    ghost use Rattle.outside.specs.Opening.{CountsSource};
    ghost use Rattle.outside.specs.Dialling.{DialCounts, DialFails, IsNewLink, HasNoNotes};
    ghost use Rattle.outside.specs.Dialling.{IsDialledWith, DialsNext};
    ghost use Rattle.outside.specs.Plan.{strikes_now, after_call, after_return};
    ghost use Rattle.outside.specs.Links.{dialer_plan, link_told, links_waiting};
    ghost use Rattle.outside.specs.Rolls.{all_told};

    type Link = MemoryLink<'a>;

    ghost links = { λ d. all_told link_told d.ended };

    ghost asked = { λ d. d.asked };

    ghost failed = { λ d. d.attempts.failed };

    ghost faults = { λ d. d.attempts.plan.faults };

    /// As `Dialer::connect`; a call that was told to fails, and each other one opens a link.
    #[tactic(auto, using(crate::proofs::ToldLemmas::none_given))]
    fn connect(&mut self, to: &Settings) -> Dialled<MemoryLink<'a>>
        ensures cause { DialCounts (⟦<Self as Dialer>⟧.faults self.old)
            (⟦<Self as Dialer>⟧.faults self.new) result }
        ensures link { IsNewLink ⟦<MemoryLink<'static> as Link>⟧.given
            ⟦<MemoryLink<'static> as Link>⟧.taken ⟦<MemoryLink<'static> as Link>⟧.ended
            ⟦<MemoryLink<'static> as Link>⟧.faults result }
        ensures quiets { HasNoNotes ⟦<MemoryLink<'static> as Link>⟧.quiets result }
        ensures dialled { IsDialledWith ⟦<MemoryLink<'static> as Link>⟧.dialled to.now result }
        ensures asked { Gathers (⟦<Self as Dialer>⟧.asked self.old)
            (⟦<Self as Dialer>⟧.asked self.new) (Some to.now) }
        ensures failed { DialFails (⟦<Self as Dialer>⟧.failed self.old)
            (⟦<Self as Dialer>⟧.failed self.new) result }
        ensures links { ⟦<Self as Dialer>⟧.links self.new ≡ ⟦<Self as Dialer>⟧.links self.old }

        // Which calls fail, and which link each other one opens.
        ensures fails { strikes_now (dialer_plan self.old) ≡ true → result ≡ Dialled.Failed }
        ensures stays { strikes_now (dialer_plan self.old) ≡ true
            → links_waiting self.new ≡ links_waiting self.old }
        ensures opens { strikes_now (dialer_plan self.old) ≡ false
            → DialsNext memory_link_left (links_waiting self.old) (links_waiting self.new) result }
        ensures plan { dialer_plan self.new ≡ after_call (dialer_plan self.old) }
    {
        self.asked.add(*to);
        if self.attempts.strikes() {
            return Dialled::Failed;
        }
        Dialled::Open(next(self.alloc, &mut self.ready, to))
    }

    fn give_back(&mut self, link: MemoryLink<'a>)
        ensures links { Gathers (⟦<Self as Dialer>⟧.links self.old)
            (⟦<Self as Dialer>⟧.links self.new)
            (link_of (⟦<MemoryLink<'static> as Link>⟧.dialled link.entry)
            (⟦<MemoryLink<'static> as Link>⟧.given link.entry)
            (⟦<MemoryLink<'static> as Link>⟧.quiets link.entry)
            (⟦<MemoryLink<'static> as Link>⟧.ended link.entry)
            (⟦<MemoryLink<'static> as Link>⟧.taken link.entry)
            (⟦<MemoryLink<'static> as Link>⟧.faults link.entry)) }
        ensures cause { CountsSource (⟦<Self as Dialer>⟧.faults self.old)
            (⟦<Self as Dialer>⟧.faults self.new)
            (⟦<MemoryLink<'static> as Link>⟧.faults link.entry) }
        ensures asked { ⟦<Self as Dialer>⟧.asked self.new ≡ ⟦<Self as Dialer>⟧.asked self.old }
        ensures failed { ⟦<Self as Dialer>⟧.failed self.new ≡ ⟦<Self as Dialer>⟧.failed self.old }
        ensures plan { dialer_plan self.new
            ≡ after_return (⟦<MemoryLink<'static> as Link>⟧.faults link.entry)
            (dialer_plan self.old) }
        ensures waiting { links_waiting self.new ≡ links_waiting self.old }
    {
        let faults = link.faults();
        self.ended.add(link);
        self.attempts.take_back(faults);
    }
}
