//! A probe in memory.
ghost use Rattle.std.specs.Prelude.{◌≡◌, [], Some, None, IfOk, if◌then◌else◌, length, nat_le};
ghost use Rattle.outside.specs.Probing.{checked};
ghost use Rattle.outside.specs.Probes.{kept_told, next_outcome, later_outcomes};

use crate::memory::roll::Roll;
use crate::probe::{Outcome, Probe};
use arrayvec::ArrayVec;
use std::alloc::{AllocError, Global};

// How many bytes of a program there is room for.
const WORDS: usize = 1_024;

/// A check that is kept.
#[derive(Drop)]
pub struct KeptCheck {
    /// The program, where there was room for it.
    pub run: Option<ArrayVec<u8, WORDS>>,
    /// What was found.
    pub outcome: Outcome,
}

/// Finds what it was told to, in order, and behind that `Down`.
///
/// A check that finds no room, or whose program has over 1,024 bytes, does its work all the same,
/// and from then on the probe doesn't tell its checks.
#[derive(Drop)]
pub struct MemoryProbe<'a> {
    outcomes: &'a [Outcome],
    kept: Roll<KeptCheck>,
}

impl<'a> MemoryProbe<'a> {
    ghost use Rattle.outside.specs.Probes.{outcomes_left};

    /// These outcomes, and room for so many checks.
    pub fn new(alloc: Global, outcomes: &'a [Outcome], room: usize) -> Result<Self, AllocError>
        ensures checks { IfOk result (λ p. ⟦<Self as Probe>⟧.checks p ≡ Some []) }
        ensures left { IfOk result (λ p. outcomes_left p ≡ outcomes.now) }
    {
        Ok(MemoryProbe {
            outcomes,
            kept: Roll::new(alloc, room)?,
        })
    }

    /// The checks in order, where there was room for all.
    pub fn kept(&self) -> Option<&[KeptCheck]> {
        self.kept.items()
    }
}

impl<'a> Probe for MemoryProbe<'a> {
    ghost use Rattle.outside.specs.Ended.{Gathers};
    ghost use Rattle.outside.specs.Rolls.{all_told};
    ghost use Rattle.outside.specs.Probes.{outcomes_left};

    ghost checks = { λ p. all_told kept_told p.kept };

    fn check(&mut self, run: &[u8]) -> Outcome
        ensures checks { Gathers (⟦<Self as Probe>⟧.checks self.old)
            (⟦<Self as Probe>⟧.checks self.new) (Some (checked run.now result)) }

        // Which outcome it is.
        ensures outcome { result ≡ next_outcome (outcomes_left self.old) }
        ensures left { outcomes_left self.new ≡ later_outcomes (outcomes_left self.old) }
    {
        let outcome = next(&mut self.outcomes);
        self.kept.add(KeptCheck {
            run: kept(run),
            outcome,
        });
        outcome
    }
}

// Takes the first outcome away.
fn next(outcomes: &mut &[Outcome]) -> Outcome
    ensures outcome { result ≡ next_outcome outcomes.old.now }
    ensures left { outcomes.new.now ≡ later_outcomes outcomes.old.now }
{
    match outcomes.split_first() {
        Some((first, others)) => {
            *outcomes = others;
            *first
        }
        None => Outcome::Down,
    }
}

// The bytes, where there is room for them.
fn kept(run: &[u8]) -> Option<ArrayVec<u8, WORDS>>
    ensures { result ≡ (if nat_le (length run.now) 1024
        then Some (record { items = run.now }) else None) }
{
    let mut bytes = ArrayVec::new();
    match bytes.try_extend_from_slice(run) {
        Ok(()) => Some(bytes),
        Err(_) => None,
    }
}
