//! A piece of what a helper writes.
ghost use Rattle.std.specs.Prelude.{◌≡◌, ◌<◌, IsTrue, None};
ghost use Rattle.config_model.specs.Limits.{max_helpers};
ghost use Rattle.line_cutter.specs.Cutting.{standing};
ghost use Rattle.helper_worker.specs.Lines.{EntersPiece};

use crate::line::enter_line;
use book_core::Book;
use book_gate::{Gate, Pass};
use line_cutter::LineCutter;
use outside::Pause;
use std::alloc::Global;
use std::sync::Wait;

/// Enters each line that ends in a piece, and answers true; false as soon as it was answered that the helper has ended.
pub fn enter_piece<R: Wait, P: Pause>(
    rt: &R,
    alloc: Global,
    gate: &Gate<Book>,
    pass: &mut Pass<Book>,
    pause: P,
    h: usize,
    inc: u64,
    cutter: &mut LineCutter,
    piece: &[u8],
) -> bool
    requires gate { pass.old.gate ≡ gate.now }
    requires slot { h < max_helpers }
    requires none { standing cutter.old ≡ None }
    ensures piece { EntersPiece pass.old h inc cutter.old piece.now result cutter.new pass.new }
    ensures none { IsTrue result → standing cutter.new ≡ None }
{
    let mut rest = piece;
    'lines: loop {
        let count = cutter.feed(rest);
        (_, rest) = rest.split_at(count);
        let Some(line) = cutter.peek() else {
            return true;
        };
        if !enter_line(rt, alloc, gate, pass, pause, h, inc, line) {
            return false;
        }
        cutter.advance();
    }
}
