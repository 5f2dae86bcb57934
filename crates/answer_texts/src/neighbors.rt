//! Answers to a neighbour's events.
ghost use Rattle.std.specs.Prelude.{◌≡◌, ◌++◌, OnOk};
ghost use Rattle.answer_texts.specs.Texts.{cut_text, message_text, peer_text, place_text, up_text};

use crate::putting::{put, put_number, put_numbers_line};
use answers::NoMemory;
use book_history::{Cut, Peer, Up};
use hex::encode_upper;
use std::alloc::Global;

/// Puts which neighbour is in a slot: whether there is one.
pub fn put_peer(text: &mut Vec<u8>, given: &Peer) -> Result<(), NoMemory>
    ensures { OnOk result (text.new.items ≡ text.old.items ++ peer_text given.now) }
{
    match given {
        Peer::Stopping => put(text, b"stopping\n"),
        Peer::Absent => put(text, b"absent\n"),
        Peer::Is(_) => put(text, b"peer\n"),
    }
}

/// Puts whether a session may come up.
pub fn put_up(text: &mut Vec<u8>, given: Up) -> Result<(), NoMemory>
    ensures { OnOk result (text.new.items ≡ text.old.items ++ up_text given) }
{
    match given {
        Up::Stopping => put(text, b"stopping\n"),
        Up::Stale => put(text, b"stale\n"),
        Up::Ok => put(text, b"up\n"),
    }
}

/// Puts what is to be sent to the neighbour of a slot: a message with its bytes in hexadecimal digits.
pub fn put_cut(
    alloc: Global,
    text: &mut Vec<u8>,
    n: usize,
    bytes: &[u8],
    given: Cut,
) -> Result<(), NoMemory>
    ensures { OnOk result (text.new.items ≡ text.old.items ++ cut_text n bytes.now given) }
{
    match given {
        Cut::Down => put(text, b"down\n"),
        Cut::Reset { code, sub } => {
            put_numbers_line(text, b"reset ", u64::from(code), u64::from(sub))
        }
        Cut::Nothing => put(text, b"nothing\n"),
        Cut::Message { last } => put_message(alloc, text, n, bytes, last),
    }
}

fn put_message(
    alloc: Global,
    text: &mut Vec<u8>,
    n: usize,
    bytes: &[u8],
    last: bool,
) -> Result<(), NoMemory>
    ensures { OnOk result (text.new.items ≡ text.old.items ++ message_text n bytes.now last) }
{
    let digits = encode_upper(alloc, bytes)?;
    put(text, b"update ")?;
    put_number(text, n as u64)?;
    put(text, place(last))?;
    put(text, digits.as_bytes())?;
    put(text, b"\n")?;
    Ok(())
}

// Whether further messages of the batch follow.
fn place(last: bool) -> &'static [u8]
    ensures { result.now ≡ place_text last }
{
    if last { b" last " } else { b" more " }
}
