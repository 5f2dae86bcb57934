//! Bytes that came and wait.
ghost use Rattle.std.specs.Prelude.{ℕ, ◌≡◌, ◌+◌, ◌-◌, ◌≤◌, [], ◌++◌, length, drop, slice_range};
ghost use Rattle.std.specs.Prelude.{IfOk};

use std::alloc::{AllocError, Global};
use std::marker::Model;

/// How many bytes wait at most: as many as the longest message has (RFC 8654, section 4).
pub const ROOM: usize = 65_535;

// How many cells they have: twice as many. Bytes that wait are moved to the front only where more bytes find no cell
// behind them. Then over half of the cells are free in front, so that no more bytes are moved than came before.
const CELLS: usize = 131_070;

/// Bytes in order, at most 65,535, which come at the end and go at the front.
#[derive(Drop)]
pub struct Pending {
    cells: Vec<u8>,
    start: usize,
    end: usize,
}

impl Model for Pending {
    ghost use Rattle.std.specs.Prelude.{ℕ, ◌≡◌, ◌+◌, ◌≤◌, List, slice_range, vec_len};

    ghost Value = { List ℕ };

    ghost view = { λ p. slice_range p.cells.items p.start p.end };

    ghost invariant = { λ p. (p.start ≤ p.end) × (p.end ≤ p.start + 65535)
        × (p.end ≤ vec_len p.cells) × (vec_len p.cells ≡ 131070) };
}

impl Pending {
    /// No bytes yet.
    pub fn new(alloc: Global) -> Result<Pending, AllocError>
        ensures { IfOk result (λ pending. pending ≡ []) }
    {
        Ok(Pending {
            cells: vec![in alloc; 0; CELLS]?,
            start: 0,
            end: 0,
        })
    }

    /// The bytes that wait.
    pub fn bytes(&self) -> &[u8]
        ensures value { result.now ≡ self.now }
        ensures small { length self.now ≤ 65535 }
    {
        &self.cells[self.start..self.end]
    }

    /// How many more bytes fit.
    pub fn spare(&self) -> usize
        ensures { result + length self.now ≡ 65535 }
    {
        ROOM - (self.end - self.start)
    }

    /// Takes all bytes out.
    pub fn clear(&mut self)
        ensures { self.new ≡ [] }
    {
        self.start = 0;
        self.end = 0;
    }

    /// Takes so many bytes out at the front.
    pub fn skip(&mut self, count: usize)
        requires { count ≤ length self.old }
        ensures { self.new ≡ drop count self.old }
    {
        self.start += count;
    }

    /// Puts bytes at the end.
    pub fn append(&mut self, piece: &[u8])
        requires { length self.old + length piece.now ≤ 65535 }
        ensures { self.new ≡ self.old ++ piece.now }
    {
        let waiting = self.end - self.start;
        let cells = self.cells.as_mut_slice();
        let start = make_room(cells, self.start, self.end, piece.len());
        put_behind(cells, start + waiting, piece);
        self.start = start;
        self.end = start + waiting + piece.len();
    }
}

// Where the cells from `start` to `end` stand once so many more can follow them: where they were, or in front.
fn make_room(cells: &mut [u8], start: usize, end: usize, more: usize) -> usize
    requires order { start ≤ end }
    requires within { end ≤ length cells.old }
    requires room { end + more ≤ start + length cells.old }
    ensures fits { result + (end - start) + more ≤ length cells.new }
    ensures same { slice_range cells.new result (result + (end - start))
        ≡ slice_range cells.old start end }
{
    if more <= cells.len() - end {
        return start;
    }
    cells.copy_within(start..end, 0);
    0
}

// Writes bytes from the cell `end` on.
fn put_behind(cells: &mut [u8], end: usize, piece: &[u8])
    requires { end + length piece.now ≤ length cells.old }
    ensures { (start : ℕ) → start ≤ end →
        slice_range cells.new start (end + length piece.now) ≡ slice_range cells.old start end
        ++ piece.now }
{
    cells[end..end + piece.len()].copy_from_slice(piece);
}
