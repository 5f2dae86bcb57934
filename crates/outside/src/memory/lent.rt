//! How many sources in memory are out.
ghost use Rattle.std.specs.Prelude.{◌≡◌, ℕ, Option, Some};
ghost use Rattle.outside.specs.Lent.{one_more, one_less};

use std::marker::Model;

/// Counts the sources that were opened and not yet given back, as far as 64 bits go.
#[derive(Drop)]
pub struct Lent {
    count: Option<u64>,
}

impl Model for Lent {
    ghost Value = { Option ℕ };

    ghost view = { λ lent. lent.count };
}

impl Lent {
    /// None is out.
    pub fn new() -> Self
        ensures { result ≡ Some 0 }
    {
        Lent { count: Some(0) }
    }

    /// One more is out.
    pub fn lend(&mut self)
        ensures { self.new ≡ one_more self.old }
    {
        self.count = self.count.and_then(|count| count.checked_add(1));
    }

    /// One came back.
    pub fn take_back(&mut self)
        ensures { self.new ≡ one_less self.old }
    {
        self.count = self.count.map(|count| count.saturating_sub(1));
    }

    /// How many are out.
    pub fn count(&self) -> Option<u64>
        ensures { result ≡ self.now }
    {
        self.count
    }
}
