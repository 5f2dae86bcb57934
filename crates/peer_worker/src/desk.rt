//! Where messages are written and gathered.
ghost use Rattle.std.specs.Prelude.{◌≡◌, ◌+◌, ◌≤◌, ◌<◌, [], ◌∷◌, ◌++◌, length, IfOk};
ghost use Rattle.update_grammar.specs.Written.{message};
ghost use Rattle.config_model.specs.Limits.{max_peers};
ghost use Rattle.session_codec.specs.Numbers.{open_type, notification_type, keepalive_type};
ghost use Rattle.session_codec.specs.Written.{open_body, notification_body};
ghost use Rattle.book_history.specs.Entries.Entry.{MessageCut};
ghost use Rattle.pass_entries.specs.Making.{Makes};

use crate::slip::{SlipCall, SlipCut};
use answers::NoMemory;
use attr_codec::Message;
use book_core::Book;
use book_gate::{Gate, Pass};
use book_history::Cut;
use route_values::Settings;
use session_codec::{Refusal, put_keepalive, put_notification, put_open};
use std::alloc::Global;
use std::marker::Model;
use std::sync::Wait;

// How many bytes each buffer has room for: any one message (RFC 8654, section 4).
const ROOM: usize = 65_535;

/// Where one message is written after another, and those that are to be sent are gathered. Both have room for 65,535
/// bytes.
#[derive(Drop)]
pub struct Desk {
    // It is away while a message is cut into it.
    slip: Option<Message>,
    out: Message,
}

impl Model for Desk {
    ghost use Rattle.std.specs.Prelude.{◌≡◌};
    ghost use Rattle.peer_worker.specs.Desks.{Desked, HasSlip, slip_of};

    ghost Value = { Desked };

    ghost view = { λ desk. record { slip = slip_of desk.slip; out = desk.out.bytes } };

    ghost invariant = { λ desk. HasSlip desk.slip × (desk.out.room ≡ 65535) };
}

impl Desk {
    ghost use Rattle.peer_worker.specs.Desks.{fresh};

    /// An empty desk.
    pub fn new(alloc: Global) -> Result<Desk, NoMemory>
        ensures { IfOk result (λ desk. desk ≡ fresh) }
    {
        let slip = Message::new(alloc, ROOM)?;
        let out = Message::new(alloc, ROOM)?;
        Ok(Desk {
            slip: Some(slip),
            out,
        })
    }

    /// The message that was written last.
    pub fn slip(&self) -> &[u8]
        ensures value { result.now ≡ self.now.slip }
        ensures small { length result.now ≤ 65535 }
    {
        let Some(slip) = &self.slip else {
            unreachable!();
        };
        slip.bytes()
    }

    /// What is gathered.
    pub fn out(&self) -> &[u8]
        ensures value { result.now ≡ self.now.out }
        ensures small { length result.now ≤ 65535 }
    {
        self.out.bytes()
    }

    /// How many bytes more may be gathered.
    pub fn spare(&self) -> usize
        ensures { result + length self.now.out ≡ 65535 }
    {
        self.out.spare()
    }

    /// Takes out all that is gathered.
    pub fn empty(&mut self)
        ensures { self.new ≡ record self.old { out = [] } }
    {
        self.out.clear();
    }

    /// Gathers the message that was written last.
    pub fn take_slip(&mut self)
        requires { length self.old.out + length self.old.slip ≤ 65535 }
        ensures { self.new ≡ record self.old { out = self.old.out ++ self.old.slip } }
    {
        let Some(slip) = &self.slip else {
            unreachable!();
        };
        self.out.append(slip.bytes());
    }

    /// Writes an OPEN with what the settings offer.
    pub fn put_open(&mut self, own: &Settings)
        ensures { self.new ≡ record self.old { slip = message open_type (open_body own.now) } }
    {
        let Some(slip) = &mut self.slip else {
            unreachable!();
        };
        slip.clear();
        put_open(slip, own);
    }

    /// Writes a KEEPALIVE.
    pub fn put_keepalive(&mut self)
        ensures { self.new ≡ record self.old { slip = message keepalive_type [] } }
    {
        let Some(slip) = &mut self.slip else {
            unreachable!();
        };
        slip.clear();
        put_keepalive(slip);
    }

    /// Writes a NOTIFICATION that says why a session ends.
    pub fn put_notification(&mut self, refusal: &Refusal)
        ensures { self.new ≡
            record self.old { slip = message notification_type (notification_body refusal.now) } }
    {
        let Some(slip) = &mut self.slip else {
            unreachable!();
        };
        slip.clear();
        put_notification(slip, refusal);
    }

    /// Has the next message of a slot's session cut.
    pub fn cut<R: Wait>(
        &mut self,
        rt: &R,
        gate: &Gate<Book>,
        pass: &mut Pass<Book>,
        n: usize,
    ) -> Cut
        requires gate { pass.old.gate ≡ gate.now }
        requires slot { n < max_peers }
        ensures makes { Makes pass.old (MessageCut n self.new.slip result ∷ []) pass.new }
        ensures out { self.new.out ≡ self.old.out }
    {
        let Some(mut out) = self.slip.take() else {
            unreachable!();
        };
        out.clear();
        let SlipCut { given, out } = gate.enter(rt, pass, SlipCall { n, out });
        self.slip = Some(out);
        given
    }
}
