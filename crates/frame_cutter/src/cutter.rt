//! The cutter.
ghost use Rattle.std.specs.Prelude.{◌≡◌, ◌↔◌, ◌⊎◌, ◌<◌, ◌≤◌, [], length, min, take, IfOk, IsTrue};

use crate::header::front;
use crate::kinds::{HEADER_LEN, MAX_LEN, MAX_LONG_LEN};
use crate::next::Next;
use crate::pending::Pending;
use answers::NoMemory;
use std::alloc::Global;
use std::marker::Model;

// Which messages may be long.
#[derive(Clone, Copy, Debug)]
enum Wide {
    // None.
    Never,
    // Those behind the one in front.
    Behind,
    // All.
    Now,
}

/// Cuts a stream of bytes into messages. Bytes come in pieces of any size, and each message is looked at where it lies.
///
/// It holds up to 65,535 bytes. A fault is for good: behind it no byte is taken, and it stays in front. One that stands
/// behind whole messages shows once these were passed.
///
/// `new` alone takes memory. `feed` takes time by the bytes that it takes, and over all calls it moves at most as many
/// bytes as it took; `peek`, `advance`, `widen` and `reset` take constant time.
#[derive(Drop)]
pub struct FrameCutter {
    pending: Pending,
    wide: Wide,
}

impl Model for FrameCutter {
    ghost use Rattle.std.specs.Prelude.{◌≤◌, length};
    ghost use Rattle.frame_cutter.specs.Cutting.{Cutting};

    ghost Value = { Cutting };

    ghost use Rattle.frame_cutter.specs.Wide.{wide_of};

    ghost view = { λ cutter. record { bytes = cutter.pending; wide = wide_of cutter.wide } };
}

impl FrameCutter {
    ghost use Rattle.frame_cutter.specs.Front.{is_sized, IsWhole, IsFault, IfWhole, OnNotYet};
    ghost use Rattle.frame_cutter.specs.Frames.{greatest};
    ghost use Rattle.frame_cutter.specs.Cutting.{fresh, front_of, room_of, fed, advanced, widened};
    ghost use Rattle.frame_cutter.specs.Told.{told};

    /// A cutter of a stream of which nothing has come. Long messages are refused.
    pub fn new(alloc: Global) -> Result<FrameCutter, NoMemory>
        ensures { IfOk result (λ cutter. cutter ≡ fresh) }
    {
        Ok(FrameCutter {
            pending: Pending::new(alloc)?,
            wide: Wide::Never,
        })
    }

    /// Begins with a new stream.
    pub fn reset(&mut self)
        ensures { self.new ≡ fresh }
    {
        self.pending.clear();
        self.wide = Wide::Never;
    }

    /// Takes bytes from the front of a piece, as many as fit, and answers how many. Where `peek` answers that no whole
    /// message stands in front there is room.
    pub fn feed(&mut self, piece: &[u8]) -> usize
        ensures count { result ≡ min (length piece.now) (room_of self.old) }
        ensures taken { self.new ≡ fed (take result piece.now) self.old }

        // When it takes nothing, and that a fault is for good.
        ensures nothing { (result ≡ 0) ↔ ((piece.now ≡ []) ⊎ (room_of self.old ≡ 0)) }
        ensures stuck { (room_of self.old ≡ 0) ↔ ((length self.old.bytes ≡ 65535)
            ⊎ IsFault (front_of self.old)) }
        ensures for_good { IsFault (front_of self.old) → self.new ≡ self.old }
    {
        if let Next::Fault(_) = self.peek() {
            return 0;
        }
        let count = piece.len().min(self.pending.spare());
        self.pending.append(&piece[..count]);
        count
    }

    /// What stands in front.
    pub fn peek(&self) -> Next<'_>
        ensures exact { told result ≡ front_of self.now }

        // What holds of each message, and of a cutter that needs more bytes.
        ensures sized { IfWhole (told result) (λ frame.
            IsTrue (is_sized (greatest self.now.wide) frame)) }
        ensures room { OnNotYet (told result) (0 < room_of self.now) }
        ensures small { length self.now.bytes ≤ 65535 }
    {
        front(self.pending.bytes(), self.wide.greatest())
    }

    /// Passes the message in front. Where no whole one stands there, nothing changes.
    pub fn advance(&mut self)
        ensures passed { self.new ≡ advanced self.old }
        ensures for_good { IsFault (front_of self.old) → self.new ≡ self.old }
    {
        let len = match self.peek() {
            Next::Frame { body, .. } => HEADER_LEN + body.len(),
            Next::NotYet | Next::Fault(_) => return,
        };
        self.pending.skip(len);
        self.wide = self.wide.behind();
    }

    /// From now on the messages behind the one in front may have up to 65,535 bytes (RFC 8654, section 4).
    pub fn widen(&mut self)
        requires { IsWhole (front_of self.old) }
        ensures { self.new ≡ widened self.old }
    {
        if let Wide::Never = self.wide {
            self.wide = Wide::Behind;
        }
    }
}

impl Wide {
    ghost use Rattle.frame_cutter.specs.Frames.{greatest, behind};
    ghost use Rattle.frame_cutter.specs.Wide.{wide_of};

    // The greatest length of the message in front.
    fn greatest(self) -> usize
        ensures { result ≡ greatest (wide_of self) }
    {
        match self {
            Wide::Never | Wide::Behind => MAX_LEN,
            Wide::Now => MAX_LONG_LEN,
        }
    }

    // The same, seen from behind the message in front.
    fn behind(self) -> Wide
        ensures { wide_of result ≡ behind (wide_of self) }
    {
        match self {
            Wide::Never => Wide::Never,
            Wide::Behind | Wide::Now => Wide::Now,
        }
    }
}
