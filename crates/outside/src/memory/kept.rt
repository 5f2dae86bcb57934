//! Bytes that were taken, as far as there is room for them.
ghost use Rattle.std.specs.Prelude.{◌≡◌, [], Some};
ghost use Rattle.std.specs.Option.{option_copied};
ghost use Rattle.outside.specs.Told.{Grows};
ghost use Rattle.outside.specs.Kept.{kept_bytes};

use arrayvec::ArrayVec;
use std::marker::Model;

// How many bytes there is room for where none was made.
const OWN: usize = 4_096;

/// Bytes with room for them that was made before.
#[derive(Drop)]
pub struct MadeRoom {
    bytes: Vec<u8>,
    room: usize,
    lost: bool,
}

impl Model for MadeRoom {
    ghost use Rattle.std.specs.Prelude.{List, ℕ, Some, None, if◌then◌else◌};
    ghost use Rattle.std.specs.declared.option.Option.{Option};

    ghost Value = { Option (List ℕ) };

    ghost view = { λ room. if room.lost then None else Some room.bytes.items };
}

impl MadeRoom {
    // Keeps a part, or loses all where the room is too small.
    fn keep(&mut self, part: &[u8])
        ensures { Grows self.old self.new part.now }
    {
        if self.lost {
            return;
        }
        let left = self.room.saturating_sub(self.bytes.len());
        if left < part.len() || self.bytes.extend_from_slice(part).is_err() {
            self.lost = true;
        }
    }

    // The bytes, where there was room for all.
    fn bytes(&self) -> Option<&[u8]>
        ensures { option_copied result ≡ self.now }
    {
        if self.lost { None } else { Some(&self.bytes) }
    }
}

/// Bytes with 4,096 bytes of room in itself.
#[derive(Drop)]
pub struct OwnRoom {
    bytes: ArrayVec<u8, OWN>,
    lost: bool,
}

impl Model for OwnRoom {
    ghost use Rattle.std.specs.Prelude.{List, ℕ, Some, None, if◌then◌else◌};
    ghost use Rattle.std.specs.declared.option.Option.{Option};

    ghost Value = { Option (List ℕ) };

    ghost view = { λ room. if room.lost then None else Some room.bytes.items };
}

impl OwnRoom {
    // Keeps a part, or loses all where the room is too small.
    fn keep(&mut self, part: &[u8])
        ensures { Grows self.old self.new part.now }
    {
        if self.lost {
            return;
        }
        if self.bytes.try_extend_from_slice(part).is_err() {
            self.lost = true;
        }
    }

    // The bytes, where there was room for all.
    fn bytes(&self) -> Option<&[u8]>
        ensures { option_copied result ≡ self.now }
    {
        if self.lost { None } else { Some(&self.bytes) }
    }
}

/// The bytes that a stream in memory has taken. Once some found no room it tells nothing.
#[derive(Drop)]
pub enum Kept {
    Made(MadeRoom),
    Own(OwnRoom),
}

impl Kept {
    /// Nothing, with this room.
    pub fn made(mut bytes: Vec<u8>, room: usize) -> Self
        ensures { kept_bytes result ≡ Some [] }
    {
        bytes.clear();
        Kept::Made(MadeRoom {
            bytes,
            room,
            lost: false,
        })
    }

    /// Nothing, with 4,096 bytes of room in itself.
    pub fn own() -> Self
        ensures { kept_bytes result ≡ Some [] }
    {
        Kept::Own(OwnRoom {
            bytes: ArrayVec::new(),
            lost: false,
        })
    }

    /// Keeps a part, or loses all where the room is too small.
    pub fn keep(&mut self, part: &[u8])
        ensures { Grows (kept_bytes self.old) (kept_bytes self.new) part.now }
    {
        match self {
            Kept::Made(room) => room.keep(part),
            Kept::Own(room) => room.keep(part),
        }
    }

    /// The bytes, where there was room for all.
    pub fn bytes(&self) -> Option<&[u8]>
        ensures { option_copied result ≡ kept_bytes self.now }
    {
        match self {
            Kept::Made(room) => room.bytes(),
            Kept::Own(room) => room.bytes(),
        }
    }
}
