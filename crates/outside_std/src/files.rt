//! The system's files.
ghost use Rattle.std.specs.Prelude.{◌≡◌, ℕ, List, None, false};

use crate::reader::ReaderSource;
use outside::{Files, Opened, Source};
use std::fs;
use std::fs::File;

/// An opened file.
pub type FileSource = ReaderSource<File>;

/// Opens the system's files for reading. It tells no content, nor how many sources are out.
#[derive(Drop)]
pub struct StdFiles<'a, R> {
    rt: &'a R,
    faults: u64,
}

impl<'a, R: fs::Files> StdFiles<'a, R>
where
    R::File: Send,
{
    /// The files that the runtime reaches.
    pub fn new(rt: &'a R) -> Self
        ensures { ⟦<Self as Files>⟧.faults result ≡ 0 }
    {
        StdFiles { rt, faults: 0 }
    }

    /// How often it has failed, its sources included once they were given back. A count of 2^64 - 1
    /// stays there.
    pub fn faults(&self) -> u64
        ensures { result ≡ ⟦<Self as Files>⟧.faults self.now }
    {
        self.faults
    }
}

impl<'a, R: fs::Files> Files for StdFiles<'a, R>
where
    R::File: Send,
{
    type Source = ReaderSource<R::File>;

    ghost content = { λ _. None };

    ghost faults = { λ f. f.faults };

    ghost lent = { λ _. None };

    fn open(&mut self, path: &str) -> Opened<ReaderSource<R::File>> {
        match File::open(self.rt, path) {
            Ok(file) => Opened::Open(ReaderSource::new(file)),
            Err(_) => {
                self.faults = self.faults.saturating_add(1);
                Opened::Failed
            }
        }
    }

    fn give_back(&mut self, source: ReaderSource<R::File>) {
        if source.faults() > 0 {
            self.faults = self.faults.saturating_add(1);
        }
    }
}
