//! One helper's replies.
ghost use Rattle.std.specs.Prelude.{◌≡◌, ◌<◌, [], ◌∷◌};
ghost use Rattle.config_model.specs.Limits.{max_helpers};
ghost use Rattle.book_history.specs.Entries.Entry.{HelperDeaf};
ghost use Rattle.pass_entries.specs.Making.{Makes, own};
ghost use Rattle.helper_worker.specs.Handing.{HasStop, writer_of};
ghost use Rattle.helper_worker.specs.Serving.{IsFreshFor, ServesOne};

use crate::answering::answer;
use crate::errand::{Errand, Return};
use book_core::{Book, DeafCall};
use book_gate::{Gate, GateName, Pass};
use outside::{Leash, Pause, Sink};
use std::marker::PhantomData;
use std::sync::Wait;

/// Answers a helper of an incarnation that was not answered before, and ends it.
pub fn serve<R: Wait, P: Pause, K: Sink + Drop, L: Leash + Drop, N: GateName>(
    rt: &R,
    gate: &Gate<Book>,
    pass: &mut Pass<Book>,
    pause: P,
    h: usize,
    errand: Errand<K, L, N>,
) -> Return<K, L, N>
    requires named { gate.now ≡ N.gate }
    requires gate { pass.old.gate ≡ gate.now }
    requires name { pass.old.name ≡ writer_of h }
    requires slot { h < max_helpers }
    requires its { errand.h ≡ h }
    requires fresh { IsFreshFor errand.inc (own pass.old) }
    ensures inc { result.inc ≡ errand.inc }
    ensures serves { ServesOne h errand.inc pass.old pass.new }
{
    let Errand {
        mut sink,
        mut leash,
        h: _,
        inc,
        glimpse,
        name: _,
    } = errand;
    gate.learn(pass, glimpse);
    answer(rt, gate, pass, pause, h, inc, &mut sink);
    leash.kill();
    let glimpse = gate.glimpse(pass);
    Return {
        sink,
        leash,
        h,
        inc,
        glimpse,
        name: PhantomData,
    }
}

/// Tells that a helper reads nothing, and ends it, where the daemon was ended.
pub fn deafen<R: Wait, K: Sink + Drop, L: Leash + Drop, N: GateName>(
    rt: &R,
    gate: &Gate<Book>,
    pass: &mut Pass<Book>,
    h: usize,
    errand: Errand<K, L, N>,
) -> Return<K, L, N>
    requires named { gate.now ≡ N.gate }
    requires gate { pass.old.gate ≡ gate.now }
    requires name { pass.old.name ≡ writer_of h }
    requires slot { h < max_helpers }
    requires its { errand.h ≡ h }
    requires fresh { IsFreshFor errand.inc (own pass.old) }
    requires stops { HasStop pass.old.seen }
    ensures inc { result.inc ≡ errand.inc }
    ensures makes { Makes pass.old (HelperDeaf h errand.inc ∷ []) pass.new }
{
    let Errand {
        sink,
        mut leash,
        h: _,
        inc,
        glimpse,
        name: _,
    } = errand;
    gate.learn(pass, glimpse);
    gate.enter(rt, pass, DeafCall { h, inc });
    leash.kill();
    let glimpse = gate.glimpse(pass);
    Return {
        sink,
        leash,
        h,
        inc,
        glimpse,
        name: PhantomData,
    }
}
