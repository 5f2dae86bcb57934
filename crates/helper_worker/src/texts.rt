//! The texts of replies, one behind the other.
ghost use Rattle.std.specs.Prelude.{◌≡◌, ◌≤◌, ◌+◌, ◌++◌, [], length};
ghost use Rattle.std.specs.List.{flat_map};
ghost use Rattle.arrayvec.specs.ArrayVec.{array_vec_len};
ghost use Rattle.ack_queue.specs.Texts.{reply_text};

use ack_queue::{MAX_REPLY_TEXT, MAX_TAKEN, REPLY_ROOM, Reply, put_reply};
use arrayvec::ArrayVec;

// How many bytes the texts of as many replies have at most as are taken at once.
const TEXTS_ROOM: usize = MAX_TAKEN * MAX_REPLY_TEXT;

/// The texts of the replies that were taken last, in one buffer that is used again and again.
#[derive(Drop)]
pub struct Text {
    bytes: ArrayVec<u8, TEXTS_ROOM>,
}

impl Text {
    pub fn new() -> Text
        ensures { result.bytes.items ≡ [] }
    {
        Text {
            bytes: ArrayVec::new(),
        }
    }

    /// Puts the texts of these replies in the place of what it holds.
    pub fn put_all(&mut self, replies: &[Reply])
        requires { length replies.now ≤ MAX_TAKEN }
        ensures { self.new.bytes.items ≡ flat_map reply_text replies.now }
    {
        self.bytes.clear();
        'replies: for reply in replies {
            self.put(reply);
        }
    }

    /// The texts.
    pub fn bytes(&self) -> &[u8]
        ensures { result.now ≡ self.now.bytes.items }
    {
        &self.bytes
    }

    // Puts the text of one more reply, for which there is room.
    fn put(&mut self, reply: &Reply)
        requires { array_vec_len self.old.bytes + MAX_REPLY_TEXT ≤ TEXTS_ROOM }
        ensures text { self.new.bytes.items ≡ self.old.bytes.items ++ reply_text reply.now }
        ensures len { array_vec_len self.new.bytes ≤ array_vec_len self.old.bytes + MAX_REPLY_TEXT }
    {
        let mut line: ArrayVec<u8, REPLY_ROOM> = ArrayVec::new();
        put_reply(reply, &mut line);
        let _ = self.bytes.try_extend_from_slice(&line);
    }
}
