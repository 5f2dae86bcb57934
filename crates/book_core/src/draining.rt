//! A session that is sent all that is to be sent.
ghost use Rattle.std.specs.Prelude.{◌≡◌, ◌<◌, ◌++◌, [], ◌∷◌, Some, OnOk, OnErr};
ghost use Rattle.attr_codec.specs.Buffer.{max_message};
ghost use Rattle.route_values.specs.Caps.{Caps};
ghost use Rattle.config_model.specs.Limits.{max_peers};
ghost use Rattle.config_model.specs.Sections.{Sections};
ghost use Rattle.peer_history.specs.Sessions.{live};
ghost use Rattle.book_history.specs.Entries.{History};
ghost use Rattle.book_history.specs.Peers.{session_at};
ghost use Rattle.book_history.specs.PeerSteps.{steps_of};
ghost use Rattle.book_core.specs.Draining.{Drains, DrainsOne, IsDrainedBy, LeaveTables};
ghost use Rattle.book_core.specs.Stands.{Stands};

use crate::book::Book;
use attr_codec::Message;
use book_history::{Cut, nothing_pending, whole_batches};
use route_values::{Items, NoMemory};
use std::alloc::Global;

/// A message that was cut, and whether it is the last of its batch.
#[derive(Drop)]
pub struct Sent {
    pub bytes: Items<u8>,
    pub last: bool,
}

impl Book {
    /// Cuts messages for a slot's session until none comes, `most` at most, and puts them into an empty list, in their
    /// order. Answers what came in place of a message; `None` where so many came, and more may.
    ///
    /// Where the session is established and something came in place of a message, nothing more is to be sent: read
    /// by the grammar, the messages leave of what the peer had just the table of the history.
    ///
    /// Each message is made in `out`, which has room for any. Where memory is wanting, `out` has the last one that was
    /// cut, and the list those before it.
    pub fn drain(
        &mut self,
        n: usize,
        most: usize,
        out: &mut Message,
        sent: &mut Items<Sent>,
    ) -> Result<Option<Cut>, NoMemory>
        requires slot { n < max_peers }
        requires room { out.old.room ≡ max_message }
        requires empty { sent.old ≡ [] }
        ensures stands { (cfg : Sections) (H : History) → Stands cfg H self.old →
            Drains cfg H n sent.new out.new.bytes result self.new }
        ensures batches { (cfg : Sections) (H : History) (caps : Caps) → Stands cfg H self.old
            → session_at cfg H n ≡ Some caps → LeaveTables cfg H n caps sent.new }
        ensures end { (cfg : Sections) (H : History) (caps : Caps) → Stands cfg H self.old
            → live (steps_of cfg n H) ≡ Some caps → IsDrainedBy cfg H n caps sent.new result }
        ensures room { out.new.room ≡ out.old.room }
    {
        // For the proof: what the messages leave.
        whole_batches();
        nothing_pending();
        peer_history::whole_batches();
        peer_history::batches_are_packed();
        let alloc = alloc_of(self);
        'cuts: for _count in 0..most {
            let given = self.send_one(alloc, n, out, sent)?;
            if given.is_some() {
                return Ok(given);
            }
        }
        Ok(None)
    }

    // Cuts one message, or what comes in its place.
    fn send_one(
        &mut self,
        alloc: Global,
        n: usize,
        out: &mut Message,
        sent: &mut Items<Sent>,
    ) -> Result<Option<Cut>, NoMemory>
        requires slot { n < max_peers }
        requires room { out.old.room ≡ max_message }
        ensures stands { (cfg : Sections) (H : History) → Stands cfg H self.old →
            DrainsOne cfg H n sent.old sent.new out.new.bytes result self.new }
        ensures room { out.new.room ≡ out.old.room }
    {
        out.clear();
        let given = self.cut(n, out);
        let Cut::Message { last } = given else {
            return Ok(Some(given));
        };
        keep(alloc, out.bytes(), last, sent)?;
        Ok(None)
    }
}

// Where the book takes its memory from.
fn alloc_of(book: &Book) -> Global {
    book.alloc
}

// Puts a message into a list.
fn keep(alloc: Global, bytes: &[u8], last: bool, sent: &mut Items<Sent>) -> Result<(), NoMemory>
    ensures ok { OnOk result
        (sent.new ≡ sent.old ++ record { bytes = bytes.now; last = last } ∷ []) }
    ensures err { OnErr result (sent.new ≡ sent.old) }
{
    let bytes = Items::from_vec(Vec::from_slice(alloc, bytes)?);
    sent.push(Sent { bytes, last })
}
