//! The calls that the gate makes on a book, each with its arguments as its fields.
//!
//! The condition of each is that of the book's call. A [`CutCall`] asks for room for any message instead, as it doesn't
//! know the session.

use crate::book::Book;
use attr_codec::Message;
use book_gate::Call;
use book_history::{Control, Cut, NotRead, Peer, Reload, Spawn, Take, Up, Verdict};
use command_grammar::ReadLine;
use config_model::Config;
use route_values::{Caps, Family, Settings};

/// [`Book::line`], of a line that was read before.
#[derive(Drop)]
pub struct LineCall<'a> {
    pub h: usize,
    pub inc: u64,
    pub read: &'a ReadLine<'a>,
}

impl<'a> Call<Book> for LineCall<'a> {
    ghost use Rattle.std.specs.Prelude.{◌<◌};
    ghost use Rattle.config_model.specs.Limits.{max_helpers};
    ghost use Rattle.book_history.specs.Entries.Entry.{LineEntered};

    type Answer = Verdict;

    ghost can = { λ call. call.h < max_helpers };

    ghost entry = { λ call answer.
        LineEntered call.h call.inc call.read.now.line call.read.now.reading answer };

    fn on(self, state: &mut Book) -> Verdict {
        state.line(self.h, self.inc, self.read)
    }
}

/// [`Book::take`].
#[derive(Drop)]
pub struct TakeCall {
    pub h: usize,
    pub inc: u64,
}

impl Call<Book> for TakeCall {
    ghost use Rattle.std.specs.Prelude.{◌<◌};
    ghost use Rattle.config_model.specs.Limits.{max_helpers};
    ghost use Rattle.book_history.specs.Entries.Entry.{RepliesTaken};

    type Answer = Take;

    ghost can = { λ call. call.h < max_helpers };

    ghost entry = { λ call answer. RepliesTaken call.h call.inc answer };

    fn on(self, state: &mut Book) -> Take {
        state.take(self.h, self.inc)
    }
}

/// [`Book::deaf`].
#[derive(Drop)]
pub struct DeafCall {
    pub h: usize,
    pub inc: u64,
}

impl Call<Book> for DeafCall {
    ghost use Rattle.std.specs.Prelude.{◌<◌};
    ghost use Rattle.config_model.specs.Limits.{max_helpers};
    ghost use Rattle.book_history.specs.Entries.Entry.{HelperDeaf};

    type Answer = ();

    ghost can = { λ call. call.h < max_helpers };

    ghost entry = { λ call answer. HelperDeaf call.h call.inc };

    fn on(self, state: &mut Book) {
        state.deaf(self.h, self.inc);
    }
}

/// [`Book::gone`].
#[derive(Drop)]
pub struct GoneCall {
    pub h: usize,
    pub inc: u64,
}

impl Call<Book> for GoneCall {
    ghost use Rattle.std.specs.Prelude.{◌<◌};
    ghost use Rattle.config_model.specs.Limits.{max_helpers};
    ghost use Rattle.book_history.specs.Entries.Entry.{HelperGone};

    type Answer = ();

    ghost can = { λ call. call.h < max_helpers };

    ghost entry = { λ call answer. HelperGone call.h call.inc };

    fn on(self, state: &mut Book) {
        state.gone(self.h, self.inc);
    }
}

/// [`Book::spawn`].
#[derive(Drop)]
pub struct SpawnCall {
    pub h: usize,
    pub now: u64,
}

impl Call<Book> for SpawnCall {
    ghost use Rattle.std.specs.Prelude.{◌<◌};
    ghost use Rattle.config_model.specs.Limits.{max_helpers};
    ghost use Rattle.book_history.specs.Entries.Entry.{SpawnAsked};

    type Answer = Spawn;

    ghost can = { λ call. call.h < max_helpers };

    ghost entry = { λ call answer. SpawnAsked call.h call.now answer };

    fn on(self, state: &mut Book) -> Spawn {
        state.spawn(self.h, self.now)
    }
}

/// [`Book::peer`].
#[derive(Drop)]
pub struct PeerCall {
    pub n: usize,
}

impl Call<Book> for PeerCall {
    ghost use Rattle.std.specs.Prelude.{◌<◌};
    ghost use Rattle.config_model.specs.Limits.{max_peers};
    ghost use Rattle.book_history.specs.Entries.Entry.{PeerAsked};

    type Answer = Peer;

    ghost can = { λ call. call.n < max_peers };

    ghost entry = { λ call answer. PeerAsked call.n answer };

    fn on(self, state: &mut Book) -> Peer {
        state.peer(self.n)
    }
}

/// [`Book::up`].
#[derive(Drop)]
pub struct UpCall {
    pub n: usize,
    pub settings: Settings,
    pub caps: Caps,
}

impl Call<Book> for UpCall {
    ghost use Rattle.std.specs.Prelude.{◌<◌};
    ghost use Rattle.config_model.specs.Limits.{max_peers};
    ghost use Rattle.book_history.specs.Entries.Entry.{CameUp};

    type Answer = Up;

    ghost can = { λ call. call.n < max_peers };

    ghost entry = { λ call answer. CameUp call.n call.settings call.caps answer };

    fn on(self, state: &mut Book) -> Up {
        state.up(self.n, &self.settings, self.caps)
    }
}

/// [`Book::down`].
#[derive(Drop)]
pub struct DownCall {
    pub n: usize,
}

impl Call<Book> for DownCall {
    ghost use Rattle.std.specs.Prelude.{◌<◌};
    ghost use Rattle.config_model.specs.Limits.{max_peers};
    ghost use Rattle.book_history.specs.Entries.Entry.{WentDown};

    type Answer = ();

    ghost can = { λ call. call.n < max_peers };

    ghost entry = { λ call answer. WentDown call.n };

    fn on(self, state: &mut Book) {
        state.down(self.n);
    }
}

/// [`Book::refresh`].
#[derive(Drop)]
pub struct RefreshCall {
    pub n: usize,
    pub family: Family,
}

impl Call<Book> for RefreshCall {
    ghost use Rattle.std.specs.Prelude.{◌<◌};
    ghost use Rattle.config_model.specs.Limits.{max_peers};
    ghost use Rattle.book_history.specs.Entries.Entry.{RefreshAsked};

    type Answer = ();

    ghost can = { λ call. call.n < max_peers };

    ghost entry = { λ call answer. RefreshAsked call.n call.family };

    fn on(self, state: &mut Book) {
        state.refresh(self.n, self.family);
    }
}

/// [`Book::cut`], into a buffer that it owns.
#[derive(Drop)]
pub struct CutCall {
    pub n: usize,
    pub out: Message,
}

/// What a [`CutCall`] is answered, and its buffer.
#[derive(Drop)]
pub struct Cutting {
    pub cut: Cut,
    pub out: Message,
}

impl Call<Book> for CutCall {
    ghost use Rattle.std.specs.Prelude.{◌≡◌, ◌<◌, []};
    ghost use Rattle.config_model.specs.Limits.{max_peers};
    ghost use Rattle.book_history.specs.Entries.Entry.{MessageCut};

    type Answer = Cutting;

    ghost can = { λ call. (call.n < max_peers) × (call.out.bytes ≡ []) × (call.out.room ≡ 65535) };

    ghost entry = { λ call answer. MessageCut call.n answer.out.bytes answer.cut };

    fn on(self, state: &mut Book) -> Cutting {
        let CutCall { n, mut out } = self;
        let cut = state.cut(n, &mut out);
        Cutting { cut, out }
    }
}

/// [`Book::control`].
#[derive(Drop)]
pub struct ControlCall;

impl Call<Book> for ControlCall {
    ghost use Rattle.book_history.specs.Entries.Entry.{ControlAsked};

    type Answer = Control;

    ghost can = { λ call. Unit {0} };

    ghost entry = { λ call answer. ControlAsked answer };

    fn on(self, state: &mut Book) -> Control {
        state.control()
    }
}

/// [`Book::reload`].
#[derive(Drop)]
pub struct ReloadCall {
    pub config: Config,
}

impl Call<Book> for ReloadCall {
    ghost use Rattle.book_history.specs.Entries.Entry.{Reloaded};

    type Answer = Reload;

    ghost can = { λ call. Unit {0} };

    ghost entry = { λ call answer. Reloaded call.config answer };

    fn on(self, state: &mut Book) -> Reload {
        state.reload(self.config)
    }
}

/// [`Book::reload_refused`].
#[derive(Drop)]
pub struct RefusedCall {
    pub why: NotRead,
}

impl Call<Book> for RefusedCall {
    ghost use Rattle.book_history.specs.Entries.Entry.{ReloadRefused};

    type Answer = ();

    ghost can = { λ call. Unit {0} };

    ghost entry = { λ call answer. ReloadRefused call.why };

    fn on(self, state: &mut Book) {
        state.reload_refused(self.why);
    }
}

/// [`Book::stop`].
#[derive(Drop)]
pub struct StopCall;

impl Call<Book> for StopCall {
    ghost use Rattle.book_history.specs.Entries.Entry.{Stopped};

    type Answer = ();

    ghost can = { λ call. Unit {0} };

    ghost entry = { λ call answer. Stopped };

    fn on(self, state: &mut Book) {
        state.stop();
    }
}
