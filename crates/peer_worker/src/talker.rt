//! The job of a talker.
ghost use Rattle.std.specs.Prelude.{◌≡◌, ◌<◌, [], ◌∷◌, IfOk, IfErr};
ghost use Rattle.config_model.specs.Limits.{max_peers};
ghost use Rattle.book_history.specs.Entries.Entry.{Stopped};
ghost use Rattle.pass_entries.specs.Making.{Makes};
ghost use Rattle.peer_worker.specs.Rounds.{Talks, stopping, told};

use crate::desk::Desk;
use crate::rounds::talk;
use book_core::{Book, StopCall};
use book_gate::{Gate, Pass};
use frame_cutter::FrameCutter;
use outside::{Clock, Dialer, Ear, Pause, Seat};
use std::alloc::Global;
use std::sync::Wait;

/// Talks to the neighbour of a slot, link after link, until the daemon is to end.
#[derive(Drop)]
pub struct Talker<'g, D, E, C, P> {
    gate: &'g Gate<Book>,
    pub n: usize,
    pub dialer: D,
    pub ear: E,
    clock: C,
    pause: P,
    pub pass: Pass<Book>,
    desk: Desk,
    cutter: FrameCutter,
    ghost of: { pass.gate ≡ gate.now },
    ghost slot: { n < max_peers },
}

/// What a talker was made of, and is taken apart into.
#[derive(Drop)]
pub struct TalkerParts<D, E> {
    pub dialer: D,
    pub ear: E,
    pub pass: Pass<Book>,
}

impl<'g, D: Dialer + Drop, E: Ear + Drop, C: Clock + Drop, P: Pause + Drop> Talker<'g, D, E, C, P> {
    /// A talker of a slot. Its buffers are made here; where there is no memory for them, its parts come back.
    pub fn new(
        alloc: Global,
        gate: &'g Gate<Book>,
        n: usize,
        dialer: D,
        ear: E,
        clock: C,
        pause: P,
        pass: Pass<Book>,
    ) -> Result<Talker<'g, D, E, C, P>, TalkerParts<D, E>>
        requires gate { pass.gate ≡ gate.now }
        requires slot { n < max_peers }
        ensures gate { IfOk result (λ talker. talker.gate ≡ gate.entry) }
        ensures n { IfOk result (λ talker. talker.n ≡ n) }
        ensures dialer { IfOk result (λ talker. talker.dialer ≡ dialer) }
        ensures ear { IfOk result (λ talker. talker.ear ≡ ear) }
        ensures pass { IfOk result (λ talker. talker.pass ≡ pass) }
        ensures back { IfErr result (λ parts. (parts.dialer ≡ dialer) × (parts.ear ≡ ear)
            × (parts.pass ≡ pass)) }
    {
        let Ok(desk) = Desk::new(alloc) else {
            return Err(TalkerParts { dialer, ear, pass });
        };
        let Ok(cutter) = FrameCutter::new(alloc) else {
            return Err(TalkerParts { dialer, ear, pass });
        };
        Ok(Talker {
            gate,
            n,
            dialer,
            ear,
            clock,
            pause: pause.at(Seat::Talker(n)),
            pass,
            desk,
            cutter,
        })
    }

    /// Its dialer, its ear and its pass, whether it has ended or was never run.
    pub fn apart(self) -> TalkerParts<D, E>
        ensures { (result.dialer ≡ self.entry.dialer) × (result.ear ≡ self.entry.ear)
            × (result.pass ≡ self.entry.pass) }
    {
        let Talker {
            gate: _,
            n: _,
            dialer,
            ear,
            clock: _,
            pause: _,
            pass,
            desk: _,
            cutter: _,
        } = self;
        TalkerParts { dialer, ear, pass }
    }
}

impl<'g, D: Dialer, E: Ear, C: Clock, P: Pause> Talker<'g, D, E, C, P> {
    /// Talks to the neighbour of its slot, link after link, until the daemon is to end.
    ///
    /// Each link is dialled with the settings that the slot was asked for right before, and given back. Where it
    /// doesn't fail, the bytes that it took are the messages that were cut for its session, in order, and those of the
    /// talker's own. Each session that came up is cut for at once, and goes down before the slot is asked for again.
    pub fn run<R: Wait>(&mut self, rt: &R)
        ensures talks { Talks self.old.n self.old.pass
            (told (D.links self.old.dialer) (D.asked self.old.dialer) (D.failed self.old.dialer))
            (stopping self.old.n ∷ []) self.new.pass
            (told (D.links self.new.dialer) (D.asked self.new.dialer)
            (D.failed self.new.dialer)) }
        ensures n { self.new.n ≡ self.old.n }
    {
        talk(
            rt,
            self.gate,
            &mut self.pass,
            self.n,
            &mut self.desk,
            &mut self.cutter,
            &mut self.dialer,
            &mut self.ear,
            self.clock,
            self.pause,
        );
        self.ear.closed(rt, self.n);
    }

    /// Ends the daemon in place of a run.
    pub fn call_off<R: Wait>(&mut self, rt: &R)
        ensures pass { Makes self.old.pass (Stopped ∷ []) self.new.pass }
        ensures dialer { self.new.dialer ≡ self.old.dialer }
        ensures n { self.new.n ≡ self.old.n }
    {
        self.gate.enter(rt, &mut self.pass, StopCall);
        self.ear.closed(rt, self.n);
    }
}
