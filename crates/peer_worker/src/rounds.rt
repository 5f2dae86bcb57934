//! Round after round: settings, a link, what is said and heard on it, and the link given back.
ghost use Rattle.std.specs.Prelude.{◌≡◌, ◌<◌, [], ◌∷◌};
ghost use Rattle.config_model.specs.Limits.{max_peers};
ghost use Rattle.peer_worker.specs.Rounds.{Talks, Visits, stopping, told};

use crate::desk::Desk;
use crate::turns::converse;
use crate::voice::Voice;
use book_core::{Book, PeerCall};
use book_gate::{Gate, Pass};
use book_history::Peer;
use frame_cutter::FrameCutter;
use outside::{Clock, Dialer, Dialled, Ear, Pause};
use route_values::Settings;
use std::sync::Wait;

// How long it is rested before the neighbour is dialled again, in milliseconds.
const BACK_OFF: u64 = 5_000;

// How long it is rested where the slot has no neighbour, in milliseconds. No ring ends it, since lines that helpers say
// give such a slot nothing to do.
const ABSENT: u64 = 1_000;

/// Talks to the neighbour of a slot, link after link, until the daemon ends.
pub fn talk<R: Wait, D: Dialer, E: Ear, C: Clock, P: Pause>(
    rt: &R,
    gate: &Gate<Book>,
    pass: &mut Pass<Book>,
    n: usize,
    desk: &mut Desk,
    cutter: &mut FrameCutter,
    dialer: &mut D,
    ear: &mut E,
    clock: C,
    pause: P,
)
    requires gate { pass.old.gate ≡ gate.now }
    requires slot { n < max_peers }
    ensures { Talks n pass.old
        (told (D.links dialer.old) (D.asked dialer.old) (D.failed dialer.old)) (stopping n ∷ [])
        pass.new (told (D.links dialer.new) (D.asked dialer.new) (D.failed dialer.new)) }
{
    for _ in rt.forever() {
        match gate.enter(rt, pass, PeerCall { n }) {
            Peer::Is(own) => {
                let stopped = visit(
                    rt, gate, pass, n, desk, cutter, dialer, ear, clock, pause, own,
                );
                rest_unless(pause, stopped);
            }
            Peer::Absent => pause.rest(ABSENT),
            Peer::Stopping => return,
        }
    }
    unreachable!()
}

// Rests before the neighbour is dialled again, unless the daemon ends.
fn rest_unless<P: Pause>(pause: P, stopped: bool) {
    if !stopped {
        pause.rest(BACK_OFF);
    }
}

/// Connects with these settings, talks, and gives the link back. Whether the session was ended because the daemon ends.
pub fn visit<R: Wait, D: Dialer, E: Ear, C: Clock, P: Pause>(
    rt: &R,
    gate: &Gate<Book>,
    pass: &mut Pass<Book>,
    n: usize,
    desk: &mut Desk,
    cutter: &mut FrameCutter,
    dialer: &mut D,
    ear: &mut E,
    clock: C,
    pause: P,
    own: Settings,
) -> bool
    requires gate { pass.old.gate ≡ gate.now }
    requires slot { n < max_peers }
    ensures { Visits n own pass.old
        (told (D.links dialer.old) (D.asked dialer.old) (D.failed dialer.old))
        pass.new (told (D.links dialer.new) (D.asked dialer.new) (D.failed dialer.new)) }
{
    match dialer.connect(&own) {
        Dialled::Open(link) => {
            let mut voice = Voice::new(link);
            desk.empty();
            converse(
                rt, gate, pass, n, desk, &mut voice, ear, own, cutter, clock, pause,
            );
            let stopped = voice.stopped;
            dialer.give_back(voice.apart());
            stopped
        }
        Dialled::Failed => false,
    }
}
