//! One line.
ghost use Rattle.std.specs.Prelude.{◌≡◌, ◌<◌};
ghost use Rattle.config_model.specs.Limits.{max_helpers};
ghost use Rattle.text_forms.specs.LineTold.{line_told};
ghost use Rattle.helper_worker.specs.Lines.{EntersLine};

use book_core::{Book, LineCall};
use book_gate::{Gate, Pass};
use book_history::Verdict;
use command_grammar::ReadLine;
use outside::{Pause, Seat};
use std::alloc::Global;
use std::sync::Wait;
use text_forms::Line;

// How long a reader waits for its replier where nobody rings, in milliseconds.
const BUSY: u64 = 500;

/// Enters a line until it is taken, and answers true; false where it was answered that the helper has ended.
///
/// It is read once, before the gate is entered.
pub fn enter_line<R: Wait, P: Pause>(
    rt: &R,
    alloc: Global,
    gate: &Gate<Book>,
    pass: &mut Pass<Book>,
    pause: P,
    h: usize,
    inc: u64,
    line: Line<'_>,
) -> bool
    requires gate { pass.old.gate ≡ gate.now }
    requires slot { h < max_helpers }
    ensures { EntersLine pass.old h inc (line_told line.entry) result pass.new }
{
    let read = ReadLine::new(alloc, line);
    enter_read(rt, gate, pass, pause, h, inc, &read)
}

// Enters a line that was read until it is taken. Where the helper's replies leave no room for more, the replier is rung
// for before the same line is entered again.
fn enter_read<R: Wait, P: Pause>(
    rt: &R,
    gate: &Gate<Book>,
    pass: &mut Pass<Book>,
    pause: P,
    h: usize,
    inc: u64,
    read: &ReadLine<'_>,
) -> bool
    requires gate { pass.old.gate ≡ gate.now }
    requires slot { h < max_helpers }
    ensures { EntersLine pass.old h inc read.now.line result pass.new }
{
    for _ in rt.forever() {
        match gate.enter(
            rt,
            pass,
            LineCall {
                h,
                inc,
                read: &*read,
            },
        ) {
            Verdict::Done => return true,
            Verdict::Error(_) => return true,
            Verdict::Busy => {
                pause.at(Seat::Replier(h)).ring();
                pause.wait(BUSY);
            }
            Verdict::Ended => return false,
        }
    }
    unreachable!()
}
