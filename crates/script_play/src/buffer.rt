//! A buffer for the messages of a book.
ghost use Rattle.std.specs.Prelude.{◌≡◌, ◌<◌, ◌∷◌, [], IfOk};
ghost use Rattle.config_model.specs.Limits.{max_peers};
ghost use Rattle.config_model.specs.Sections.{Sections};
ghost use Rattle.book_history.specs.Entries.{History};
ghost use Rattle.book_history.specs.Entries.Entry.{MessageCut};
ghost use Rattle.book_core.specs.Stands.{Stands};
ghost use Rattle.attr_codec.specs.Buffer.{max_message};

use answers::NoMemory;
use attr_codec::Message;
use book_core::{Book, Cut};
use std::alloc::Global;
use std::marker::Model;

/// How many bytes a message may have.
pub const MAX_MESSAGE: usize = 65_535;

/// A buffer with room for any message.
#[derive(Drop)]
pub struct Buffer {
    message: Message,
}

impl Model for Buffer {
    ghost use Rattle.std.specs.Prelude.{◌≡◌};
    ghost use Rattle.attr_codec.specs.Buffer.{Buffer as Bytes, max_message};

    ghost Value = { Bytes };

    ghost view = { λ buffer. buffer.message };

    ghost invariant = { λ buffer. buffer.message.room ≡ max_message };
}

impl Buffer {
    /// An empty buffer.
    pub fn new(alloc: Global) -> Result<Buffer, NoMemory>
        ensures { IfOk result (λ buffer. buffer ≡ record { bytes = []; room = max_message }) }
    {
        let message = Message::new(alloc, MAX_MESSAGE)?;
        Ok(Buffer { message })
    }

    /// Its bytes.
    pub fn bytes(&self) -> &[u8]
        ensures { result.now ≡ self.now.bytes }
    {
        self.message.bytes()
    }

    /// Makes the next message of a slot of a book in the place of what the buffer holds.
    pub fn cut(&mut self, book: &mut Book, n: usize) -> Cut
        requires { n < max_peers }
        ensures stands { (cfg : Sections) (H : History) → Stands cfg H book.old
            → Stands cfg (MessageCut n self.new.bytes result ∷ H) book.new }
        ensures room { self.new.room ≡ self.old.room }
    {
        self.message.clear();
        book.cut(n, &mut self.message)
    }
}
