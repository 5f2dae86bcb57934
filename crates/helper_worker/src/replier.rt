//! The job of a replier.
ghost use Rattle.std.specs.Prelude.{◌≡◌, ◌<◌, []};
ghost use Rattle.config_model.specs.Limits.{max_helpers};
ghost use Rattle.pass_entries.specs.Making.{own};
ghost use Rattle.helper_worker.specs.Handing.{writer_of};
ghost use Rattle.helper_worker.specs.Serving.{CallsOff, IsFreshBehind, Serves};

use crate::handover::Handover;
use crate::replying::{refuse, reply};
use book_core::Book;
use book_gate::{Gate, GateName, Pass};
use outside::{Pause, Seat, Spawner};
use std::sync::{Arc, Wait};

/// Writes the replies of the helpers of a slot, until the slot's reader has ended.
#[derive(Drop)]
pub struct Replier<'g, S: Spawner, P, N: GateName> {
    gate: &'g Gate<Book>,
    pub h: usize,
    pause: P,
    handover: Arc<Handover<S::Sink, S::Leash, N>>,
    /// The incarnation that was answered last, or 0.
    pub last: u64,
    pub pass: Pass<Book>,
    ghost of: { pass.gate ≡ gate.now },
    ghost named: { gate.now ≡ N.gate },
    ghost name: { pass.name ≡ writer_of h },
    ghost slot: { h < max_helpers },
    ghost fresh: { IsFreshBehind last (own pass) },
}

impl<'g, S: Spawner, P: Pause + Drop, N: GateName> Replier<'g, S, P, N> {
    // A replier of a slot.
    pub(crate) fn new(
        gate: &'g Gate<Book>,
        h: usize,
        pause: P,
        handover: Arc<Handover<S::Sink, S::Leash, N>>,
        pass: Pass<Book>,
    ) -> Replier<'g, S, P, N>
        requires of { pass.gate ≡ gate.now }
        requires named { gate.now ≡ N.gate }
        requires name { pass.name ≡ writer_of h }
        requires slot { h < max_helpers }
        requires new { own pass ≡ [] }
        ensures slot { result.h ≡ h }
        ensures last { result.last ≡ 0 }
        ensures pass { result.pass ≡ pass }
    {
        Replier {
            gate,
            h,
            pause: pause.at(Seat::Replier(h)),
            handover,
            last: 0,
            pass,
        }
    }

    // Its pass.
    pub(crate) fn apart(self) -> Pass<Book>
        ensures { result ≡ self.entry.pass }
    {
        let Replier {
            gate: _,
            h: _,
            pause: _,
            handover: _,
            last: _,
            pass,
        } = self;
        pass
    }
}

impl<'g, S: Spawner, P: Pause, N: GateName> Replier<'g, S, P, N> {
    /// Takes and writes the replies of each helper that is handed over, and hands its sink back, until the reader has
    /// ended.
    ///
    /// No incarnation is answered twice. A helper is told deaf only where its sink has failed.
    pub fn run<R: Wait>(&mut self, rt: &R)
        ensures serves { Serves self.old.h self.old.last self.new.last self.old.pass
            self.new.pass }
        ensures slot { self.new.h ≡ self.old.h }
    {
        reply(
            rt,
            self.gate,
            &mut self.pass,
            self.pause,
            self.h,
            &*self.handover,
            &mut self.last,
        );
    }

    /// Ends the daemon in place of a run. A helper that was handed over before is told deaf and handed back.
    pub fn call_off<R: Wait>(&mut self, rt: &R)
        ensures off { CallsOff self.old.h self.old.last self.new.last self.old.pass self.new.pass }
        ensures slot { self.new.h ≡ self.old.h }
    {
        refuse(
            rt,
            self.gate,
            &mut self.pass,
            self.pause,
            self.h,
            &*self.handover,
            &mut self.last,
        );
    }
}
