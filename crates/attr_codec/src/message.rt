//! The buffer that a message is written into.
ghost use Rattle.std.specs.Prelude.{ℕ, ◌≡◌, ◌+◌, ◌≤◌, List, [], ◌++◌, length, take, drop, IfOk};
ghost use Rattle.std.specs.Int.{w16, w32, w128, to_be_bytes};

use crate::numbers::{u16_bytes, u32_bytes, u128_bytes};
use answers::NoMemory;
use arrayvec::ArrayVec;
use std::alloc::Global;
use std::marker::Model;

// The greatest length of a message (RFC 8654, section 4).
const MAX_MESSAGE: usize = 65_535;

// Where the length of the whole message stands in its header (RFC 4271, section 4.1).
const LEN_START: usize = 16;

const LEN_END: usize = 18;

/// A buffer for one message, with a room of its own: how many bytes may stand in it, at most 65,535. Its 64 KB lie on
/// the heap, so that it is moved as a pointer.
#[derive(Drop)]
pub struct Message {
    bytes: Box<ArrayVec<u8, MAX_MESSAGE>>,
    room: usize,
}

impl Model for Message {
    ghost use Rattle.std.specs.Prelude.{◌≤◌, length};
    ghost use Rattle.attr_codec.specs.Buffer.{Buffer, max_message};

    ghost Value = { Buffer };

    ghost view = { λ m. record { bytes = m.bytes.value.items; room = m.room } };

    ghost invariant = { λ m. (length m.bytes.value.items ≤ m.room) × (m.room ≤ max_message) };
}

impl Message {
    ghost use Rattle.update_grammar.specs.Codes.{marker_len, length_end};
    ghost use Rattle.attr_codec.specs.Buffer.{HasRoom, Appended, max_message};

    /// An empty buffer with room for so many bytes.
    pub fn new(alloc: Global, room: usize) -> Result<Message, NoMemory>
        requires { room ≤ max_message }
        ensures { IfOk result (λ message. message ≡ record { bytes = []; room = room }) }
    {
        Ok(Message {
            bytes: Box::new(alloc, ArrayVec::new())?,
            room,
        })
    }

    /// The bytes so far.
    pub fn bytes(&self) -> &[u8]
        ensures value { result.now ≡ self.now.bytes }
        ensures fits { length result.now ≤ self.now.room }
        ensures small { self.now.room ≤ max_message }
    {
        self.bytes.as_slice()
    }

    /// How many more bytes fit.
    pub fn spare(&self) -> usize
        ensures room { result + length self.now.bytes ≡ self.now.room }
        ensures small { self.now.room ≤ max_message }
    {
        self.room - self.bytes.len()
    }

    /// Takes all bytes out; the room stays.
    pub fn clear(&mut self)
        ensures { self.new ≡ record self.old { bytes = [] } }
    {
        self.bytes.clear();
    }

    /// Puts bytes at the end.
    pub fn append(&mut self, piece: &[u8])
        requires { HasRoom self.old (length piece.now) }
        ensures { Appended self.old self.new piece.now }
    {
        let _ = self.bytes.try_extend_from_slice(piece);
    }

    /// Puts a number at the end, in two bytes.
    pub fn append_u16(&mut self, number: u16)
        requires { HasRoom self.old 2 }
        ensures { Appended self.old self.new (to_be_bytes w16 number) }
    {
        self.append(&u16_bytes(number));
    }

    /// Puts a number at the end, in four bytes.
    pub fn append_u32(&mut self, number: u32)
        requires { HasRoom self.old 4 }
        ensures { Appended self.old self.new (to_be_bytes w32 number) }
    {
        self.append(&u32_bytes(number));
    }

    /// Puts a number at the end, in sixteen bytes.
    pub fn append_u128(&mut self, number: u128)
        requires { HasRoom self.old 16 }
        ensures { Appended self.old self.new (to_be_bytes w128 number) }
    {
        self.append(&u128_bytes(number));
    }

    /// Writes bytes over those that stand from `start` on.
    pub fn overwrite(&mut self, start: usize, piece: &[u8])
        requires { start + length piece.now ≤ length self.old.bytes }
        ensures bytes { self.new.bytes ≡ take start self.old.bytes
            ++ (piece.now ++ drop (start + length piece.now) self.old.bytes) }
        ensures room { self.new.room ≡ self.old.room }
        ensures len { length self.new.bytes ≡ length self.old.bytes }
    {
        let cells = self.bytes.as_mut_slice();
        cells[start..start + piece.len()].copy_from_slice(piece);
    }

    /// Moves the last `count` bytes to the place `start`, before those that stand from there on.
    pub fn move_last(&mut self, start: usize, count: usize)
        requires { start + count ≤ length self.old.bytes }
        ensures bytes { (before after last : List ℕ) → length before ≡ start → length last ≡ count →
            self.old.bytes ≡ before ++ (after ++ last)
            → self.new.bytes ≡ before ++ (last ++ after) }
        ensures room { self.new.room ≡ self.old.room }
        ensures len { length self.new.bytes ≡ length self.old.bytes }
    {
        let cells = self.bytes.as_mut_slice();
        cells[start..].rotate_right(count);
    }

    /// Writes how many bytes there are into the header (RFC 4271, section 4.1).
    pub fn seal(&mut self)
        requires { length_end ≤ length self.old.bytes }
        ensures { self.new ≡ record self.old {
          bytes = take marker_len self.old.bytes
              ++ (to_be_bytes w16 (length self.old.bytes) ++ drop length_end self.old.bytes);
        } }
    {
        let len = self.bytes.len() as u16;
        let cells = self.bytes.as_mut_slice();
        cells[LEN_START..LEN_END].copy_from_slice(&u16_bytes(len));
    }
}
