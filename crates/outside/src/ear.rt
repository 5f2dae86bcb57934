//! Who is told what the peers send.
ghost use Rattle.std.specs.Prelude.{◌≤◌, Some, List, length};
ghost use Rattle.std.specs.declared.option.Option.{Option};

use std::sync::Wait;

/// How many bytes the body of a message that is heard has at most: those of a message of 65,535
/// bytes (RFC 8654, section 3) without its header of 19 (RFC 4271, section 4.1).
pub const MAX_BODY: usize = 65_516;

/// Who is told what the peers send, by the numbers of their slots. A call may wait.
pub trait Ear {
    ghost use Rattle.outside.specs.Hearing.{HeardCall, Began, Heard, Ended, Closed};
    ghost use Rattle.outside.specs.Ended.{Gathers};

    /// The calls so far, in order, where it tells them.
    ghost calls: { Self → Option (List HeardCall) };

    /// A session came up. What the peer may send on it are bits: 1 for IPv4 routes, 2 for IPv6
    /// routes, 4 and 8 for those with path identifiers, 16 for extended messages.
    fn began<R: Wait>(&mut self, rt: &R, n: usize, caps: u8)
        ensures { Gathers (calls self.old) (calls self.new) (Some (Began n caps)) };

    /// An UPDATE message came. The body is what stands behind its header.
    fn heard<R: Wait>(&mut self, rt: &R, n: usize, body: &[u8])
        requires { length body.now ≤ MAX_BODY }
        ensures { Gathers (calls self.old) (calls self.new) (Some (Heard n body.now)) };

    /// The session ended.
    fn ended<R: Wait>(&mut self, rt: &R, n: usize)
        ensures { Gathers (calls self.old) (calls self.new) (Some (Ended n)) };

    /// There are no more sessions.
    fn closed<R: Wait>(&mut self, rt: &R, n: usize)
        ensures { Gathers (calls self.old) (calls self.new) (Some (Closed n)) };
}
