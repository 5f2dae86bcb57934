//! Round after round of the keeper.
ghost use Rattle.std.specs.Prelude.{◌≡◌, ◌∷◌, []};
ghost use Rattle.outside.specs.Lent.{LendsNone};
ghost use Rattle.control_worker.specs.Rounds.{Keeps, Reloads, stop_told};

use crate::ringing::ring_all;
use book_core::{Book, ControlCall, RefusedCall, ReloadCall};
use book_gate::{Gate, Pass};
use book_history::Control;
use config_files::read_config_at;
use config_model::Slots;
use outside::{Files, Pause};
use std::alloc::Global;
use std::sync::Wait;

// How long the keeper waits where nothing is to be done and nobody rings, in milliseconds.
const IDLE: u64 = 500;

/// Asks the book what is to be done, and does it, until the daemon is to end.
pub fn keep<R: Wait, F: Files, P: Pause>(
    rt: &R,
    alloc: Global,
    gate: &Gate<Book>,
    pass: &mut Pass<Book>,
    files: &mut F,
    path: &str,
    slots: Slots,
    pause: P,
)
    requires { pass.old.gate ≡ gate.now }
    ensures keeps { Keeps (F.content files.old) path.now slots pass.old (F.faults files.old)
        (stop_told ∷ []) (F.faults files.new) pass.new }
    ensures content { F.content files.new ≡ F.content files.old }
    ensures back { LendsNone (F.lent files.old) (F.lent files.new) }
{
    for _ in rt.forever() {
        match gate.enter(rt, pass, ControlCall) {
            Control::Nothing => pause.wait(IDLE),
            Control::ReloadDue => {
                reload(rt, alloc, gate, pass, files, path, slots);
                ring_all(pause, slots);
            }
            Control::Stop => return,
        }
    }
    unreachable!()
}

/// Enters the configuration of the file at a path, or why there is none.
pub fn reload<R: Wait, F: Files>(
    rt: &R,
    alloc: Global,
    gate: &Gate<Book>,
    pass: &mut Pass<Book>,
    files: &mut F,
    path: &str,
    slots: Slots,
)
    requires { pass.old.gate ≡ gate.now }
    ensures reloads { Reloads (F.content files.old) path.now slots pass.old
        (F.faults files.old) (F.faults files.new) pass.new }
    ensures content { F.content files.new ≡ F.content files.old }
    ensures back { LendsNone (F.lent files.old) (F.lent files.new) }
{
    match read_config_at(alloc, files, path, slots) {
        Ok(config) => {
            gate.enter(rt, pass, ReloadCall { config });
        }
        Err(why) => {
            gate.enter(rt, pass, RefusedCall { why });
        }
    }
}
