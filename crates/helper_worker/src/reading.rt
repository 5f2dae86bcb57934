//! Round after round of a reader.
ghost use Rattle.std.specs.Prelude.{◌≡◌, ◌<◌};
ghost use Rattle.config_model.specs.Limits.{max_helpers};
ghost use Rattle.helper_worker.specs.Handing.{writer_of};
ghost use Rattle.helper_worker.specs.Rounds.{ReadsOut, told};

use crate::handover::Handover;
use crate::visiting::visit;
use book_core::{Book, SpawnCall};
use book_gate::{Gate, GateName, Pass};
use book_history::Spawn;
use line_cutter::LineCutter;
use outside::{Clock, Pause, Spawner};
use std::alloc::Global;
use std::sync::Wait;

// How long a reader rests where no helper may be started, in milliseconds.
const REST: u64 = 1_000;

/// Starts a helper whenever the book lets it, and enters its lines, until the daemon is to end.
pub fn read_helpers<R: Wait, C: Clock, P: Pause, S: Spawner, N: GateName>(
    rt: &R,
    alloc: Global,
    gate: &Gate<Book>,
    pass: &mut Pass<Book>,
    clock: C,
    pause: P,
    h: usize,
    cutter: &mut LineCutter,
    handover: &Handover<S::Sink, S::Leash, N>,
    spawner: &mut S,
)
    requires named { gate.now ≡ N.gate }
    requires gate { pass.old.gate ≡ gate.now }
    requires slot { h < max_helpers }
    ensures { ReadsOut h (writer_of h) (C.moments clock)
        (told (S.children spawner.old) (S.asked spawner.old) (S.failed spawner.old))
        (told (S.children spawner.new) (S.asked spawner.new) (S.failed spawner.new))
        pass.old pass.new }
{
    for _ in rt.forever() {
        let now = clock.now();
        match gate.enter(rt, pass, SpawnCall { h, now }) {
            Spawn::Stopping => return,
            Spawn::Absent => pause.rest(REST),
            Spawn::Running => pause.rest(REST),
            Spawn::GiveUp => pause.rest(REST),
            Spawn::Go { inc, run } => {
                visit(
                    rt, alloc, gate, pass, pause, h, inc, &run, cutter, handover, spawner,
                );
            }
        }
    }
    unreachable!()
}
