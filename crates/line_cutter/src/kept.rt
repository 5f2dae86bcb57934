//! The bytes of a part that are kept.
ghost use Rattle.std.specs.Prelude.{◌≡◌, ◌+◌, ◌≤◌, ◌++◌, [], length, take, IfOk};

use std::alloc::{AllocError, Global};
use std::marker::Model;

/// How many bytes of a part are kept: as many as a line has at most.
pub const ROOM: usize = 65_535;

/// The first bytes of a part, at most 65,535 of them.
#[derive(Drop)]
pub struct Kept {
    cells: Vec<u8>,
    len: usize,
}

impl Model for Kept {
    ghost use Rattle.std.specs.Prelude.{ℕ, ◌≡◌, ◌≤◌, List, take, vec_len};

    ghost Value = { List ℕ };

    ghost view = { λ kept. take kept.len kept.cells.items };

    ghost invariant = { λ kept. (kept.len ≤ 65535) × (vec_len kept.cells ≡ 65535) };
}

impl Kept {
    /// No bytes yet.
    pub fn new(alloc: Global) -> Result<Kept, AllocError>
        ensures { IfOk result (λ kept. kept ≡ []) }
    {
        Ok(Kept {
            cells: vec![in alloc; 0; ROOM]?,
            len: 0,
        })
    }

    /// The bytes that are kept.
    pub fn bytes(&self) -> &[u8]
        ensures value { result.now ≡ self.now }
        ensures small { length self.now ≤ 65535 }
    {
        &self.cells[..self.len]
    }

    /// How many more bytes fit.
    pub fn spare(&self) -> usize
        ensures { result + length self.now ≡ 65535 }
    {
        ROOM - self.len
    }

    /// Drops all bytes.
    pub fn clear(&mut self)
        ensures { self.new ≡ [] }
    {
        self.len = 0;
    }

    /// Puts bytes at the end.
    pub fn append(&mut self, piece: &[u8])
        requires { length self.old + length piece.now ≤ 65535 }
        ensures { self.new ≡ self.old ++ piece.now }
    {
        put_behind(self.cells.as_mut_slice(), self.len, piece);
        self.len += piece.len();
    }
}

// Writes bytes from the cell `len` on.
fn put_behind(cells: &mut [u8], len: usize, piece: &[u8])
    requires { len + length piece.now ≤ length cells.old }
    ensures { take (len + length piece.now) cells.new ≡ take len cells.old ++ piece.now }
{
    cells[len..len + piece.len()].copy_from_slice(piece);
}
