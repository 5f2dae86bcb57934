//! The job of a reader.
ghost use Rattle.std.specs.Prelude.{◌≡◌, ◌<◌, [], ◌∷◌};
ghost use Rattle.config_model.specs.Limits.{max_helpers};
ghost use Rattle.book_history.specs.Entries.Entry.{Stopped};
ghost use Rattle.pass_entries.specs.Making.{Makes};
ghost use Rattle.helper_worker.specs.Handing.{writer_of};
ghost use Rattle.helper_worker.specs.Rounds.{ReadsOut, told};

use crate::handover::Handover;
use crate::reading::read_helpers;
use crate::ringing::ring_all;
use book_core::{Book, StopCall};
use book_gate::{Gate, GateName, Pass};
use line_cutter::LineCutter;
use outside::{Clock, Pause, Seat, Spawner};
use std::alloc::Global;
use std::sync::{Arc, Wait};

/// Starts the helpers of a slot and enters their lines, until the daemon is to end.
#[derive(Drop)]
pub struct Reader<'g, S: Spawner, C, P, N: GateName> {
    alloc: Global,
    gate: &'g Gate<Book>,
    pub h: usize,
    pub spawner: S,
    pub clock: C,
    pause: P,
    cutter: LineCutter,
    handover: Arc<Handover<S::Sink, S::Leash, N>>,
    pub pass: Pass<Book>,
    ghost of: { pass.gate ≡ gate.now },
    ghost named: { gate.now ≡ N.gate },
    ghost slot: { h < max_helpers },
}

impl<'g, S: Spawner + Drop, C: Clock + Drop, P: Pause + Drop, N: GateName> Reader<'g, S, C, P, N> {
    // A reader of a slot.
    pub(crate) fn new(
        alloc: Global,
        gate: &'g Gate<Book>,
        h: usize,
        spawner: S,
        clock: C,
        pause: P,
        cutter: LineCutter,
        handover: Arc<Handover<S::Sink, S::Leash, N>>,
        pass: Pass<Book>,
    ) -> Reader<'g, S, C, P, N>
        requires of { pass.gate ≡ gate.now }
        requires named { gate.now ≡ N.gate }
        requires slot { h < max_helpers }
        ensures slot { result.h ≡ h }
        ensures spawner { result.spawner ≡ spawner }
        ensures clock { result.clock ≡ clock }
        ensures pass { result.pass ≡ pass }
    {
        Reader {
            alloc,
            gate,
            h,
            spawner,
            clock,
            pause: pause.at(Seat::Reader(h)),
            cutter,
            handover,
            pass,
        }
    }

    // Its spawner and its pass.
    pub(crate) fn apart(self) -> (S, Pass<Book>)
        ensures { (result.0 ≡ self.entry.spawner) × (result.1 ≡ self.entry.pass) }
    {
        let Reader {
            alloc: _,
            gate: _,
            h: _,
            spawner,
            clock: _,
            pause: _,
            cutter: _,
            handover: _,
            pass,
        } = self;
        (spawner, pass)
    }
}

impl<'g, S: Spawner, C: Clock, P: Pause, N: GateName> Reader<'g, S, C, P, N> {
    /// Asks the book for leave to start a helper, starts it, and enters its lines and that it is gone, until the daemon
    /// is to end.
    ///
    /// A sink that goes to the replier has come back before the book is asked again.
    pub fn run<R: Wait>(&mut self, rt: &R)
        ensures reads { ReadsOut self.old.h (writer_of self.old.h) (C.moments self.old.clock)
            (told (S.children self.old.spawner) (S.asked self.old.spawner)
            (S.failed self.old.spawner))
            (told (S.children self.new.spawner) (S.asked self.new.spawner)
            (S.failed self.new.spawner))
            self.old.pass self.new.pass }
        ensures slot { self.new.h ≡ self.old.h }
        ensures clock { self.new.clock ≡ self.old.clock }
    {
        read_helpers(
            rt,
            self.alloc,
            self.gate,
            &mut self.pass,
            self.clock,
            self.pause,
            self.h,
            &mut self.cutter,
            &*self.handover,
            &mut self.spawner,
        );
        self.end(rt);
    }

    /// Ends the daemon in place of a run.
    pub fn call_off<R: Wait>(&mut self, rt: &R)
        ensures pass { Makes self.old.pass (Stopped ∷ []) self.new.pass }
        ensures spawner { self.new.spawner ≡ self.old.spawner }
        ensures slot { self.new.h ≡ self.old.h }
        ensures clock { self.new.clock ≡ self.old.clock }
    {
        self.gate.enter(rt, &mut self.pass, StopCall);
        self.end(rt);
        ring_all(self.pause, self.h);
    }

    // Tells the replier that nothing more is handed over.
    fn end<R: Wait>(&self, rt: &R) {
        self.handover.end(rt);
        self.pause.at(Seat::Replier(self.h)).ring();
    }
}
