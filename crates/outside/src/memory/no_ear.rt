//! An ear that ignores what it is told.
ghost use Rattle.std.specs.Prelude.{None};

use crate::ear::Ear;
use std::sync::Wait;

/// Ignores what it is told, and tells nothing of it.
#[derive(Clone, Copy, Debug, PartialEq, Eq)]
pub struct NoEar;

impl Ear for NoEar {
    ghost calls = { λ _. None };

    fn began<R: Wait>(&mut self, _rt: &R, _n: usize, _caps: u8) {}

    fn heard<R: Wait>(&mut self, _rt: &R, _n: usize, _body: &[u8]) {}

    fn ended<R: Wait>(&mut self, _rt: &R, _n: usize) {}

    fn closed<R: Wait>(&mut self, _rt: &R, _n: usize) {}
}
