//! Links in memory that are always opened.
ghost use Rattle.std.specs.Prelude.{◌≡◌, [], Some, false, map, IfOk};
ghost use Rattle.std.specs.Option.{option_copied};
ghost use Rattle.outside.specs.Links.{link_left, ready_bytes, sure_links_waiting};
ghost use Rattle.outside.specs.Waiting.{TakesNext, waiting_in};

use crate::dialer::{Dialer, Dialled};
use crate::link::Link;
use crate::memory::kept::Kept;
use crate::memory::ready::ReadyLink;
use crate::memory::roll::Roll;
use crate::memory::sure_link::SureLink;
use crate::memory::sure_source::SureSource;
use route_values::Settings;
use std::alloc::{AllocError, Global};

/// Opens the links that were made ready, in order, and never fails. Neither do its links, and they
/// hold nothing.
///
/// Behind the last one it opens links that give nothing, end at once, and have room for 4,096
/// bytes. A call that finds no room for what it records does its work all the same, and from then
/// on the dialer doesn't tell the list that lacks it.
#[derive(Drop)]
pub struct SureDialer<'a> {
    alloc: Global,
    ready: Vec<ReadyLink<'a>>,
    ended: Roll<SureLink<'a>>,
    asked: Roll<Settings>,
}

impl<'a> SureDialer<'a> {
    /// These links. It has room for so many calls, and as many ended links.
    pub fn new(
        alloc: Global,
        mut ready: Vec<ReadyLink<'a>>,
        room: usize,
    ) -> Result<Self, AllocError>
        ensures links { IfOk result (λ d. ⟦<Self as Dialer>⟧.links d ≡ Some []) }
        ensures asked { IfOk result (λ d. ⟦<Self as Dialer>⟧.asked d ≡ Some []) }
        ensures waiting { IfOk result (λ d. sure_links_waiting d
            ≡ map ready_bytes ready.entry.items) }
    {
        ready.reverse();
        Ok(SureDialer {
            alloc,
            ended: Roll::new(alloc, room)?,
            asked: Roll::new(alloc, room)?,
            ready,
        })
    }

    /// What was asked for, where there was room for all.
    pub fn asked(&self) -> Option<&[Settings]>
        ensures { option_copied result ≡ ⟦<Self as Dialer>⟧.asked self.now }
    {
        self.asked.items()
    }

    /// The links that have ended, in order, where there was room for all.
    pub fn ended(&self) -> Option<&[SureLink<'a>]> {
        self.ended.items()
    }
}

// The next link that is ready, or one that ends at once.
fn next<'a>(alloc: Global, ready: &mut Vec<ReadyLink<'a>>, to: &Settings) -> SureLink<'a>
    ensures given { ⟦<SureLink<'static> as Link>⟧.given result ≡ Some [] }
    ensures taken { ⟦<SureLink<'static> as Link>⟧.taken result ≡ Some [] }
    ensures quiets { ⟦<SureLink<'static> as Link>⟧.quiets result ≡ Some [] }
    ensures ended { ⟦<SureLink<'static> as Link>⟧.ended result ≡ false }
    ensures dialled { ⟦<SureLink<'static> as Link>⟧.dialled result ≡ Some to.now }
    ensures order { TakesNext (waiting_in ready_bytes ready.old.items)
        (waiting_in ready_bytes ready.new.items) (link_left result) }
{
    let Some(link) = ready.pop() else {
        let quiets = Roll::none(alloc);
        let supply = SureSource::new(&[]);
        return SureLink::new(to, supply, true, usize::MAX, quiets, Kept::own());
    };
    link.open_surely(to)
}

impl<'a> Dialer for SureDialer<'a> {
    ghost use Rattle.outside.specs.Ended.{link_of, Gathers};
    ghost use Rattle.outside.specs.Opening.{CountsSource};
    ghost use Rattle.outside.specs.Dialling.{DialCounts, DialFails, IsNewLink, HasNoNotes};
    ghost use Rattle.outside.specs.Dialling.{IsDialledWith, DialsNext};
    ghost use Rattle.outside.specs.Links.{sure_link_told};
    ghost use Rattle.outside.specs.Rolls.{all_told};

    type Link = SureLink<'a>;

    ghost links = { λ d. all_told sure_link_told d.ended };

    ghost asked = { λ d. d.asked };

    ghost failed = { λ _. Some 0 };

    ghost faults = { λ _. 0 };

    /// As `Dialer::connect`; it never fails.
    #[tactic(auto, using(crate::proofs::ToldLemmas::none_given))]
    fn connect(&mut self, to: &Settings) -> Dialled<SureLink<'a>>
        ensures cause { DialCounts 0 0 result }
        ensures link { IsNewLink ⟦<SureLink<'static> as Link>⟧.given
            ⟦<SureLink<'static> as Link>⟧.taken ⟦<SureLink<'static> as Link>⟧.ended
            ⟦<SureLink<'static> as Link>⟧.faults result }
        ensures quiets { HasNoNotes ⟦<SureLink<'static> as Link>⟧.quiets result }
        ensures dialled { IsDialledWith ⟦<SureLink<'static> as Link>⟧.dialled to.now result }
        ensures asked { Gathers (⟦<Self as Dialer>⟧.asked self.old)
            (⟦<Self as Dialer>⟧.asked self.new) (Some to.now) }
        ensures failed { DialFails (Some 0) (Some 0) result }
        ensures links { ⟦<Self as Dialer>⟧.links self.new ≡ ⟦<Self as Dialer>⟧.links self.old }
        ensures opens { DialsNext link_left (sure_links_waiting self.old)
            (sure_links_waiting self.new) result }
    {
        self.asked.add(*to);
        Dialled::Open(next(self.alloc, &mut self.ready, to))
    }

    fn give_back(&mut self, link: SureLink<'a>)
        ensures links { Gathers (⟦<Self as Dialer>⟧.links self.old)
            (⟦<Self as Dialer>⟧.links self.new)
            (link_of (⟦<SureLink<'static> as Link>⟧.dialled link.entry)
            (⟦<SureLink<'static> as Link>⟧.given link.entry)
            (⟦<SureLink<'static> as Link>⟧.quiets link.entry)
            (⟦<SureLink<'static> as Link>⟧.ended link.entry)
            (⟦<SureLink<'static> as Link>⟧.taken link.entry) 0) }
        ensures cause { CountsSource 0 0 0 }
        ensures asked { ⟦<Self as Dialer>⟧.asked self.new ≡ ⟦<Self as Dialer>⟧.asked self.old }
        ensures failed { ⟦<Self as Dialer>⟧.failed self.new ≡ ⟦<Self as Dialer>⟧.failed self.old }
        ensures waiting { sure_links_waiting self.new ≡ sure_links_waiting self.old }
    {
        self.ended.add(link);
    }
}
