//! The job of the keeper.
ghost use Rattle.std.specs.Prelude.{◌≡◌, [], ◌∷◌};
ghost use Rattle.outside.specs.Lent.{LendsNone};
ghost use Rattle.book_history.specs.Entries.Entry.{Stopped};
ghost use Rattle.pass_entries.specs.Making.{Makes};
ghost use Rattle.control_worker.specs.Rounds.{Keeps, stop_told};

use crate::keeping::keep;
use crate::ringing::end_waits;
use book_core::{Book, StopCall};
use book_gate::{Gate, Pass};
use config_model::Slots;
use outside::{Files, Pause, Seat};
use std::alloc::Global;
use std::sync::Wait;

/// Reloads the configuration whenever that is due, until the daemon is to end.
#[derive(Drop)]
pub struct Keeper<'g, F, P> {
    alloc: Global,
    gate: &'g Gate<Book>,
    pub path: &'g str,
    pub slots: Slots,
    pub files: F,
    pause: P,
    pub pass: Pass<Book>,
    ghost of: { pass.gate ≡ gate.now },
}

/// What a keeper was made of, and is taken apart into.
#[derive(Drop)]
pub struct KeeperParts<F> {
    pub files: F,
    pub pass: Pass<Book>,
}

impl<'g, F: Files + Drop, P: Pause + Drop> Keeper<'g, F, P> {
    /// A keeper of the configuration in the file at a path, which is read for so many slots.
    pub fn new(
        alloc: Global,
        gate: &'g Gate<Book>,
        path: &'g str,
        slots: Slots,
        files: F,
        pause: P,
        pass: Pass<Book>,
    ) -> Keeper<'g, F, P>
        requires { pass.gate ≡ gate.now }
        ensures gate { result.gate ≡ gate.entry }
        ensures path { result.path ≡ path.entry }
        ensures slots { result.slots ≡ slots }
        ensures files { result.files ≡ files }
        ensures pass { result.pass ≡ pass }
    {
        Keeper {
            alloc,
            gate,
            path,
            slots,
            files,
            pause: pause.at(Seat::Keeper),
            pass,
        }
    }

    /// Its files and its pass, whether it has ended or was never run.
    pub fn apart(self) -> KeeperParts<F>
        ensures { (result.files ≡ self.entry.files) × (result.pass ≡ self.entry.pass) }
    {
        let Keeper {
            alloc: _,
            gate: _,
            path: _,
            slots: _,
            files,
            pause: _,
            pass,
        } = self;
        KeeperParts { files, pass }
    }
}

impl<'g, F: Files, P: Pause> Keeper<'g, F, P> {
    /// Asks the book what is to be done, and does it, until the daemon is to end.
    ///
    /// Each reload that is due is followed at once by the configuration that the file's bytes are, or by why they are
    /// none. The file's count of faults rises just where it wasn't read.
    pub fn run<R: Wait>(&mut self, rt: &R)
        ensures keeps { Keeps (F.content self.old.files) self.old.path.now self.old.slots
            self.old.pass (F.faults self.old.files) (stop_told ∷ [])
            (F.faults self.new.files) self.new.pass }
        ensures content { F.content self.new.files ≡ F.content self.old.files }
        ensures back { LendsNone (F.lent self.old.files) (F.lent self.new.files) }
        ensures path { self.new.path ≡ self.old.path }
        ensures slots { self.new.slots ≡ self.old.slots }
    {
        keep(
            rt,
            self.alloc,
            self.gate,
            &mut self.pass,
            &mut self.files,
            self.path,
            self.slots,
            self.pause,
        );
        end_waits(self.pause, self.slots);
    }

    /// Ends the daemon in place of a run.
    pub fn call_off<R: Wait>(&mut self, rt: &R)
        ensures pass { Makes self.old.pass (Stopped ∷ []) self.new.pass }
        ensures files { self.new.files ≡ self.old.files }
        ensures path { self.new.path ≡ self.old.path }
        ensures slots { self.new.slots ≡ self.old.slots }
    {
        self.gate.enter(rt, &mut self.pass, StopCall);
        end_waits(self.pause, self.slots);
    }
}
