//! The replies of one helper.
ghost use Rattle.std.specs.Prelude.{◌≡◌, ◌<◌};
ghost use Rattle.config_model.specs.Limits.{max_helpers};
ghost use Rattle.helper_worker.specs.Replies.{Answers};

use crate::texts::Text;
use ack_queue::MAX_TAKEN;
use book_core::{Book, DeafCall, TakeCall};
use book_gate::{Gate, Pass};
use book_history::Take;
use outside::{Pause, Seat, Sink, write_all};
use std::sync::Wait;

// How long a replier waits for replies where nobody rings, in milliseconds.
const IDLE: u64 = 500;

// Rings the reader where as many replies were taken as are taken at once: it may wait for room behind them. Where fewer
// were, it goes on by itself, and a ring would cost each line a wake of its thread.
fn ring_if_full<P: Pause>(pause: P, h: usize, taken: usize) {
    if taken == MAX_TAKEN {
        pause.at(Seat::Reader(h)).ring();
    }
}

/// Takes the replies of an incarnation and writes them, until nothing more comes or the sink fails, which is then
/// entered. What is taken at once is written at once.
pub fn answer<R: Wait, P: Pause, K: Sink>(
    rt: &R,
    gate: &Gate<Book>,
    pass: &mut Pass<Book>,
    pause: P,
    h: usize,
    inc: u64,
    sink: &mut K,
)
    requires gate { pass.old.gate ≡ gate.now }
    requires slot { h < max_helpers }
    ensures { Answers pass.old h inc (K.taken sink.old) (K.taken sink.new) (K.faults sink.new)
        pass.new }
{
    let mut text = Text::new();
    for _ in rt.forever() {
        match gate.enter(rt, pass, TakeCall { h, inc }) {
            Take::Replies(replies) => {
                ring_if_full(pause, h, replies.len());
                text.put_all(&replies);
                match write_all(sink, text.bytes()) {
                    Ok(()) => {}
                    Err(_) => {
                        gate.enter(rt, pass, DeafCall { h, inc });
                        return;
                    }
                }
            }
            Take::Nothing => pause.wait(IDLE),
            Take::Ended => return,
        }
    }
    unreachable!()
}
