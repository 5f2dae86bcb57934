//! What a reader and a replier hand to each other.
ghost use Rattle.std.specs.Prelude.{◌≡◌, true};
ghost use Rattle.helper_worker.specs.Handing.{HasGo, HasStop, IsAnswered, TookNothing, writer_of};

use book_core::Book;
use book_gate::{GateName, Glimpse};
use outside::Sink;
use std::marker::PhantomData;

/// On its way to the replier: the sink of a helper that was just started.
#[derive(Drop)]
pub struct Errand<K: Sink, L, N: GateName> {
    pub sink: K,
    pub leash: L,
    pub h: usize,
    pub inc: u64,
    pub glimpse: Glimpse<Book>,
    pub name: PhantomData<N>,
    ghost of: { glimpse.gate ≡ N.gate },
    ghost new: { TookNothing (K.taken sink) },
    ghost goes: { HasGo h inc glimpse.seen },
}

/// On its way back: the sink of a helper that is told nothing more. What it took is told by the replier's entries.
#[derive(Drop)]
pub struct Return<K: Sink, L, N: GateName> {
    pub sink: K,
    pub leash: L,
    pub h: usize,
    pub inc: u64,
    pub glimpse: Glimpse<Book>,
    pub name: PhantomData<N>,
    ghost of: { glimpse.gate ≡ N.gate },
    ghost answered: { IsAnswered (writer_of h) h inc (K.taken sink) (K.faults sink) glimpse.seen },
}

/// That the replier was called off, which has ended the daemon.
#[derive(Drop)]
pub struct Off<N: GateName> {
    pub glimpse: Glimpse<Book>,
    pub name: PhantomData<N>,
    ghost of: { glimpse.gate ≡ N.gate },
    ghost stops: { HasStop glimpse.seen },
}
