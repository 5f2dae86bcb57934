//! What a session's table asks for.
ghost use Rattle.std.specs.Prelude.{◌≡◌, ◌<◌, [], ◌∷◌};
ghost use Rattle.config_model.specs.Limits.{max_peers};
ghost use Rattle.peer_worker.specs.Deeds.{fallen};
ghost use Rattle.peer_worker.specs.Goings.{Acts, Carries, Does};
ghost use Rattle.peer_worker.specs.Wires.{wire};

use crate::desk::Desk;
use crate::speaking::{flush, say_keepalive, say_open, say_refusal};
use crate::voice::Voice;
use book_core::{Book, DownCall, RefreshCall};
use book_gate::{Gate, Pass};
use outside::{Ear, Link};
use route_values::Settings;
use session_machine::Action;
use std::sync::Wait;

// Does what the table asks for. That a session comes up is left to the caller, as is the body that is heard.
fn act<R: Wait, L: Link, E: Ear>(
    rt: &R,
    gate: &Gate<Book>,
    pass: &mut Pass<Book>,
    n: usize,
    desk: &mut Desk,
    voice: &mut Voice<L>,
    ear: &mut E,
    own: Settings,
    action: &Action,
)
    requires gate { pass.old.gate ≡ gate.now }
    requires slot { n < max_peers }
    ensures { Does n own pass.old (wire L.Link voice.old desk.old) (Carries (action.now ∷ []))
        pass.new (wire L.Link voice.new desk.new) }
{
    match action {
        Action::SendOpen => say_open(voice, desk, own),
        Action::SendKeepalive => say_keepalive(voice, desk, own),
        Action::Notify(refusal) => say_refusal(voice, desk, own, refusal),
        Action::Up(_) => {}
        Action::Down => go_down(rt, gate, pass, n, desk, voice, ear, own),
        Action::Refresh(family) => {
            gate.enter(rt, pass, RefreshCall { n, family: *family });
        }
        Action::Heard => {}
        Action::Close => {}
    }
}

// Enters that the session is no more, once all that was gathered is sent.
fn go_down<R: Wait, L: Link, E: Ear>(
    rt: &R,
    gate: &Gate<Book>,
    pass: &mut Pass<Book>,
    n: usize,
    desk: &mut Desk,
    voice: &mut Voice<L>,
    ear: &mut E,
    own: Settings,
)
    requires gate { pass.old.gate ≡ gate.now }
    requires slot { n < max_peers }
    ensures { Acts n own pass.old (wire L.Link voice.old desk.old) (fallen ∷ [])
        pass.new (wire L.Link voice.new desk.new) }
{
    flush(voice, desk);
    gate.enter(rt, pass, DownCall { n });
    if voice.up {
        voice.up = false;
        ear.ended(rt, n);
    }
}

/// Does all that the table asks for, in order. That a session comes up is left to the caller, as is the body that is
/// heard.
pub fn act_all<R: Wait, L: Link, E: Ear>(
    rt: &R,
    gate: &Gate<Book>,
    pass: &mut Pass<Book>,
    n: usize,
    desk: &mut Desk,
    voice: &mut Voice<L>,
    ear: &mut E,
    own: Settings,
    todo: &[Action],
)
    requires gate { pass.old.gate ≡ gate.now }
    requires slot { n < max_peers }
    ensures { Does n own pass.old (wire L.Link voice.old desk.old) (Carries todo.now)
        pass.new (wire L.Link voice.new desk.new) }
{
    for action in todo {
        act(rt, gate, pass, n, desk, voice, ear, own, action);
    }
}
