//! What is said on a link.
ghost use Rattle.std.specs.Prelude.{ℕ, ◌≡◌, ◌+◌, ◌≤◌, ◌<◌, true, false, [], ◌∷◌, ◌++◌, List};
ghost use Rattle.std.specs.Prelude.{length};
ghost use Rattle.outside.specs.Told.{Grows};
ghost use Rattle.peer_worker.specs.Deeds.{open_said, keepalive_said, refusal_said};
ghost use Rattle.peer_worker.specs.Wires.{Gathered, Moves, wire};

use crate::desk::Desk;
use crate::voice::Voice;
use outside::{Link, Write};
use route_values::Settings;
use session_codec::Refusal;

// Sends the whole piece. False where the link failed.
fn send_all<L: Link>(link: &mut L, piece: &[u8]) -> bool
    ensures all { result ≡ true → Grows (L.taken link.old) (L.taken link.new) piece.now }
    ensures some { result ≡ false → (part : List ℕ) × (rest : List ℕ) × (part ++ rest ≡ piece.now)
        × Grows (L.taken link.old) (L.taken link.new) part × (0 < L.faults link.new) }
    ensures later { L.faults link.old ≤ L.faults link.new }
    ensures dialled { L.dialled link.new ≡ L.dialled link.old }
{
    let mut sent = 0;
    'rests: while sent < piece.len() {
        match link.send(&piece[sent..]) {
            Write::Wrote(count) => sent += count,
            Write::Failed => return false,
        }
    }
    true
}

/// Sends what is gathered, unless a send failed before.
pub fn flush<L: Link>(voice: &mut Voice<L>, desk: &mut Desk)
    ensures said { Gathered (wire L.Link voice.old desk.old) [] (wire L.Link voice.new desk.new) }
    ensures out { desk.new ≡ record desk.old { out = [] } }
{
    if !voice.broken {
        let sent = send_all(&mut voice.link, desk.out());
        voice.broken = !sent;
    }
    desk.empty();
}

// Sends what is gathered where it leaves no room for the message that was written last.
fn make_room<L: Link>(voice: &mut Voice<L>, desk: &mut Desk)
    ensures said { Gathered (wire L.Link voice.old desk.old) [] (wire L.Link voice.new desk.new) }
    ensures slip { desk.new.slip ≡ desk.old.slip }
    ensures room { length desk.new.out + length desk.new.slip ≤ 65535 }
{
    if desk.spare() < desk.slip().len() {
        flush(voice, desk);
    }
}

/// Gathers the message that was written last.
pub fn gather<L: Link>(voice: &mut Voice<L>, desk: &mut Desk)
    ensures { Gathered (wire L.Link voice.old desk.old) desk.old.slip
        (wire L.Link voice.new desk.new) }
{
    make_room(voice, desk);
    desk.take_slip();
}

/// Says an OPEN.
pub fn say_open<L: Link>(voice: &mut Voice<L>, desk: &mut Desk, own: Settings)
    ensures { Moves own (wire L.Link voice.old desk.old) (open_said ∷ [])
        (wire L.Link voice.new desk.new) }
{
    desk.put_open(&own);
    gather(voice, desk);
}

/// Says a KEEPALIVE.
pub fn say_keepalive<L: Link>(voice: &mut Voice<L>, desk: &mut Desk, own: Settings)
    ensures { Moves own (wire L.Link voice.old desk.old) (keepalive_said ∷ [])
        (wire L.Link voice.new desk.new) }
{
    desk.put_keepalive();
    gather(voice, desk);
}

/// Says a NOTIFICATION.
pub fn say_refusal<L: Link>(voice: &mut Voice<L>, desk: &mut Desk, own: Settings, refusal: &Refusal)
    ensures { Moves own (wire L.Link voice.old desk.old) (refusal_said refusal.now ∷ [])
        (wire L.Link voice.new desk.new) }
{
    desk.put_notification(refusal);
    gather(voice, desk);
}
