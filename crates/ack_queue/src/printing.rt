//! The texts of replies. No call takes memory.
ghost use Rattle.std.specs.Prelude.{◌≡◌, ◌+◌, ◌≤◌, ◌++◌, codes, length};
ghost use Rattle.arrayvec.specs.ArrayVec.{array_vec_len};
ghost use Rattle.text_forms.specs.Printed.{addr_text, prefix_text};
ghost use Rattle.ack_queue.specs.Texts.{key_text, owner_text, shown_text, reply_text};

use crate::reply::{Reply, Shown};
use arrayvec::ArrayVec;
use route_values::Key;
use text_forms::{put_addr, put_prefix, put_u32};

/// How many bytes a reply takes at most, with its line feed.
pub const MAX_REPLY_TEXT: usize = 183;

/// How many bytes the buffer has that a reply's text is put into.
pub const REPLY_ROOM: usize = 256;

// The path identifier of a route for which none was written (RFC 7911, section 3, has no such value).
const NO_ID: u32 = 0;

/// Puts a reply's text, with its line feed, in the place of what the buffer holds.
pub fn put_reply(reply: &Reply, out: &mut ArrayVec<u8, REPLY_ROOM>)
    ensures text { out.new.items ≡ reply_text reply.now }
    ensures short { array_vec_len out.new ≤ MAX_REPLY_TEXT }
{
    out.clear();
    match reply {
        Reply::Done => put(b"done\n", out),
        Reply::Error => put(b"error\n", out),
        Reply::NoMemory => put(b"error memory\n", out),
        Reply::Route(shown) => put_shown(shown, out),
    }
}

// Puts the line of a route.
fn put_shown(shown: &Shown, out: &mut ArrayVec<u8, REPLY_ROOM>)
    requires { array_vec_len out.old ≡ 0 }
    ensures text { out.new.items ≡ out.old.items ++ shown_text shown.now }
    ensures short { array_vec_len out.new ≤ MAX_REPLY_TEXT }
{
    put(b"neighbor ", out);
    put_addr(shown.peer, out);
    put(b" route ", out);
    put_key(&shown.key, out);
    put(b" next-hop ", out);
    put_addr(shown.hop, out);
    put(owner(shown.fixed), out);
    out.push(b'\n');
}

// Puts a prefix and its path identifier.
fn put_key(key: &Key, out: &mut ArrayVec<u8, REPLY_ROOM>)
    requires { array_vec_len out.old + 71 ≤ REPLY_ROOM }
    ensures text { out.new.items ≡ out.old.items ++ key_text key.now }
    ensures short { array_vec_len out.new ≤ array_vec_len out.old + 71 }
{
    put_prefix(&key.prefix, out);
    if key.id != NO_ID {
        put(b" path-information ", out);
        put_u32(key.id, out);
    }
}

// Whose a route is.
fn owner(fixed: bool) -> &'static [u8]
    ensures text { result.now ≡ owner_text fixed }
    ensures short { length result.now ≡ 7 }
{
    if fixed { b" static" } else { b" helper" }
}

// Puts bytes for which there is room.
fn put(piece: &[u8], out: &mut ArrayVec<u8, REPLY_ROOM>)
    requires { array_vec_len out.old + length piece.now ≤ REPLY_ROOM }
    ensures text { out.new.items ≡ out.old.items ++ piece.now }
    ensures len { array_vec_len out.new ≡ array_vec_len out.old + length piece.now }
{
    let _ = out.try_extend_from_slice(piece);
}
