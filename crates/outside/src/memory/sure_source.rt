//! A source in memory that never fails.
ghost use Rattle.std.specs.Prelude.{◌≡◌, ◌<◌, ◌≤◌, ◌-◌, ◌^◌, [], length, take, drop};
ghost use Rattle.std.specs.Prelude.{Some, false};

use crate::source::{Read, Source};

/// Gives its content from the front, and never fails.
#[derive(Clone, Copy, Debug)]
pub struct SureSource<'a> {
    content: &'a [u8],
    at: usize,
    step: usize,
    ended: bool,
    ghost within: { at ≤ length content.now },
    ghost moving: { 0 < step },
}

impl<'a> SureSource<'a> {
    ghost use Rattle.outside.specs.Supply.{step_of, given_of};

    /// A source of this content, which gives as many bytes a call as the buffer holds.
    pub fn new(content: &'a [u8]) -> Self
        ensures given { ⟦<Self as Source>⟧.given result ≡ Some [] }
        ensures left { ⟦<Self as Source>⟧.left result ≡ Some content.now }
        ensures ended { ⟦<Self as Source>⟧.ended result ≡ false }
        ensures step { step_of result ≡ 2 ^ 64 - 1 }
    {
        Self::in_steps(content, usize::MAX)
    }

    /// A source of this content, which gives at most `step` bytes a call.
    pub fn in_steps(content: &'a [u8], step: usize) -> Self
        requires { 0 < step }
        ensures given { ⟦<Self as Source>⟧.given result ≡ Some [] }
        ensures left { ⟦<Self as Source>⟧.left result ≡ Some content.now }
        ensures ended { ⟦<Self as Source>⟧.ended result ≡ false }
        ensures step { step_of result ≡ step }
    {
        SureSource {
            content,
            at: 0,
            step,
            ended: false,
        }
    }

    // How many bytes it has given.
    pub(crate) fn given(&self) -> usize
        ensures { result ≡ length (given_of self.now) }
    {
        self.at
    }
}

impl Source for SureSource<'_> {
    ghost use Rattle.outside.specs.Calls.{Reads, Ends, Leaves, ReadCounts};
    ghost use Rattle.outside.specs.Supply.{step_of, rest_of, answer_of};

    ghost given = { λ s. Some (take s.at s.content.now) };

    ghost left = { λ s. Some (drop s.at s.content.now) };

    ghost ended = { λ s. s.ended };

    ghost faults = { λ _. 0 };

    /// As `Source::read`; it gives all that is left, as far as the buffer and the step reach.
    fn read(&mut self, into: &mut [u8]) -> Read
        requires { 0 < length into.old }
        ensures bytes { Reads (⟦<Self as Source>⟧.given self.old)
            (⟦<Self as Source>⟧.given self.new) into.new result }
        ensures left { Leaves (⟦<Self as Source>⟧.left self.old)
            (⟦<Self as Source>⟧.left self.new) into.new result }
        ensures end { Ends (⟦<Self as Source>⟧.ended self.old)
            (⟦<Self as Source>⟧.ended self.new) result }
        ensures cause { ReadCounts 0 0 result }
        ensures answer { result ≡ answer_of (length into.old) (step_of self.old)
            (rest_of self.old) }
        ensures step { step_of self.new ≡ step_of self.old }
    {
        let rest = &self.content[self.at..];
        let count = into.len().min(self.step).min(rest.len());
        if count == 0 {
            self.ended = true;
            return Read::End;
        }
        into[..count].copy_from_slice(&rest[..count]);
        self.at += count;
        Read::Got(count)
    }
}
