//! Replies that were taken.
ghost use Rattle.std.specs.Prelude.{◌≡◌, ◌++◌, OnOk};
ghost use Rattle.std.specs.List.{flat_map};
ghost use Rattle.ack_queue.specs.Texts.{reply_text};
ghost use Rattle.answer_texts.specs.Texts.{IsPut, replies_text, take_text, taken_text};

use crate::putting::put;
use ack_queue::{REPLY_ROOM, Reply, put_reply};
use answers::NoMemory;
use arrayvec::ArrayVec;
use book_history::Take;

/// Puts what was taken, as a script tells it: each reply behind the word `reply`.
pub fn put_take(text: &mut Vec<u8>, given: Take) -> Result<(), NoMemory>
    ensures { OnOk result (text.new.items ≡ text.old.items ++ take_text given) }
{
    match given {
        Take::Ended => put(text, b"ended\n"),
        Take::Nothing => put(text, b"nothing\n"),
        Take::Replies(replies) => put_taken(text, &replies),
    }
}

/// Puts the replies that were taken, as their helper reads them.
pub fn put_replies(text: &mut Vec<u8>, given: Take) -> Result<(), NoMemory>
    ensures { OnOk result (text.new.items ≡ text.old.items ++ replies_text given) }
{
    match given {
        Take::Ended | Take::Nothing => Ok(()),
        Take::Replies(replies) => put_each(text, &replies),
    }
}

// Puts each of some replies, and the word `reply` before it.
fn put_taken(text: &mut Vec<u8>, replies: &[Reply]) -> Result<(), NoMemory>
    ensures { OnOk result (text.new.items ≡ text.old.items ++ flat_map taken_text replies.now) }
{
    'replies: for reply in replies {
        put_one_taken(text, reply)?;
    }
    Ok(())
}

// Puts each of some replies.
fn put_each(text: &mut Vec<u8>, replies: &[Reply]) -> Result<(), NoMemory>
    ensures { OnOk result (text.new.items ≡ text.old.items ++ flat_map reply_text replies.now) }
{
    'replies: for reply in replies {
        put_one(text, reply)?;
    }
    Ok(())
}

fn put_one_taken(text: &mut Vec<u8>, reply: &Reply) -> Result<(), NoMemory>
    ensures { OnOk result (text.new.items ≡ text.old.items ++ taken_text reply.now) }
{
    put(text, b"reply ")?;
    put_one(text, reply)?;
    Ok(())
}

fn put_one(text: &mut Vec<u8>, reply: &Reply) -> Result<(), NoMemory>
    ensures text { OnOk result (text.new.items ≡ text.old.items ++ reply_text reply.now) }
    ensures piece { OnOk result (IsPut text.old.items (reply_text reply.now) text.new.items) }
{
    let mut line: ArrayVec<u8, REPLY_ROOM> = ArrayVec::new();
    put_reply(reply, &mut line);
    put(text, &line)
}
