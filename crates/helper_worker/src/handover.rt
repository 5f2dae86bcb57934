//! The place where a reader and a replier hand over.
ghost use Rattle.std.specs.Prelude.{◌≡◌, IfSome};

use crate::errand::{Errand, Off, Return};
use book_gate::GateName;
use outside::Sink;
use std::sync::{Mutex, Wait};

/// At most one errand in each direction, and which of the two is no longer there.
#[derive(Drop)]
pub struct Handover<K: Sink, L, N: GateName> {
    desk: Mutex<Desk<K, L, N>>,
}

#[derive(Drop)]
struct Desk<K: Sink, L, N: GateName> {
    there: Option<Errand<K, L, N>>,
    back: Option<Return<K, L, N>>,
    off: Option<Off<N>>,
    has_ended: bool,
}

/// An errand that the replier doesn't take, as it was called off.
#[derive(Drop)]
pub struct Unhanded<K: Sink, L, N: GateName> {
    pub errand: Errand<K, L, N>,
    pub off: Off<N>,
}

/// What a replier finds.
#[derive(Drop)]
pub enum Fetched<K: Sink, L, N: GateName> {
    /// The sink of a new helper.
    Errand(Errand<K, L, N>),
    /// Nothing yet.
    Nothing,
    /// The reader has ended, and hands nothing more over.
    Ended,
}

impl<K: Sink + Drop, L: Drop, N: GateName> Handover<K, L, N> {
    /// Nothing was handed over yet.
    pub fn new() -> Self {
        Handover {
            desk: Mutex::new(Desk {
                there: None,
                back: None,
                off: None,
                has_ended: false,
            }),
        }
    }

    /// Hands an errand to the replier. It comes back where the replier was called off.
    pub fn hand<R: Wait>(&self, rt: &R, errand: Errand<K, L, N>) -> Option<Unhanded<K, L, N>>
        ensures { IfSome result (λ unhanded. unhanded.errand ≡ errand) }
    {
        let mut desk = self.desk.lock(rt);
        let Some(off) = desk.off.take() else {
            desk.there = Some(errand);
            return None;
        };
        Some(Unhanded { errand, off })
    }

    /// What the reader has handed over.
    pub fn fetch<R: Wait>(&self, rt: &R) -> Fetched<K, L, N> {
        let mut desk = self.desk.lock(rt);
        let Some(errand) = desk.there.take() else {
            return if desk.has_ended {
                Fetched::Ended
            } else {
                Fetched::Nothing
            };
        };
        Fetched::Errand(errand)
    }

    /// Hands a sink back to the reader.
    pub fn put_back<R: Wait>(&self, rt: &R, done: Return<K, L, N>) {
        self.desk.lock(rt).back = Some(done);
    }

    /// What the replier has handed back.
    pub fn take_back<R: Wait>(&self, rt: &R) -> Option<Return<K, L, N>> {
        self.desk.lock(rt).back.take()
    }

    /// Tells the replier that the reader has ended.
    pub fn end<R: Wait>(&self, rt: &R) {
        self.desk.lock(rt).has_ended = true;
    }

    /// Tells the reader that the replier was called off, and takes what was handed over before.
    pub fn call_off<R: Wait>(&self, rt: &R, off: Off<N>) -> Option<Errand<K, L, N>> {
        let mut desk = self.desk.lock(rt);
        desk.off = Some(off);
        desk.there.take()
    }
}
