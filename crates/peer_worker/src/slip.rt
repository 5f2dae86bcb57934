//! A cut whose buffer comes back as large as it was.
ghost use Rattle.std.specs.Prelude.{◌≡◌};

use attr_codec::Message;
use book_core::Book;
use book_gate::Call;
use book_history::Cut;

/// [`Book::cut`], into a buffer that it owns.
#[derive(Drop)]
pub struct SlipCall {
    pub n: usize,
    pub out: Message,
}

/// What a [`SlipCall`] is answered, and its buffer, which has room for any message again.
#[derive(Drop)]
pub struct SlipCut {
    pub given: Cut,
    pub out: Message,
    ghost room: { out.room ≡ 65535 },
}

impl Call<Book> for SlipCall {
    ghost use Rattle.std.specs.Prelude.{◌≡◌, ◌<◌, []};
    ghost use Rattle.config_model.specs.Limits.{max_peers};
    ghost use Rattle.book_history.specs.Entries.Entry.{MessageCut};

    type Answer = SlipCut;

    ghost can = { λ call. (call.n < max_peers) × (call.out.bytes ≡ []) × (call.out.room ≡ 65535) };

    ghost entry = { λ call answer. MessageCut call.n answer.out.bytes answer.given };

    fn on(self, state: &mut Book) -> SlipCut {
        let SlipCall { n, mut out } = self;
        let given = state.cut(n, &mut out);
        SlipCut { given, out }
    }
}
