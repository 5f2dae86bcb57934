//! The two jobs of a slot.
ghost use Rattle.std.specs.Prelude.{◌≡◌, ◌<◌, [], IfOk, IfErr};
ghost use Rattle.config_model.specs.Limits.{max_helpers};
ghost use Rattle.pass_entries.specs.Making.{own};
ghost use Rattle.helper_worker.specs.Handing.{writer_of};

use crate::handover::Handover;
use crate::reader::Reader;
use crate::replier::Replier;
use book_core::Book;
use book_gate::{Gate, GateName, Pass};
use line_cutter::LineCutter;
use outside::{Clock, Pause, Spawner};
use std::alloc::Global;
use std::sync::Arc;

/// The jobs of a helper slot.
#[derive(Drop)]
pub struct Pair<'g, S: Spawner, C, P, N: GateName> {
    pub reader: Reader<'g, S, C, P, N>,
    pub replier: Replier<'g, S, P, N>,
}

/// What the jobs of a helper slot were made of, and are taken apart into.
#[derive(Drop)]
pub struct Apart<S> {
    pub spawner: S,
    pub reading: Pass<Book>,
    pub writing: Pass<Book>,
}

/// The reader and the replier of a slot, joined by their handover. All comes back where there is no memory.
///
/// `N` names the gate. The pass that writes has the name of its slot's replier, and has made no entry.
pub fn make_pair<'g, S: Spawner + Drop, C: Clock + Drop, P: Pause + Drop, N: GateName>(
    alloc: Global,
    gate: &'g Gate<Book>,
    h: usize,
    spawner: S,
    clock: C,
    pause: P,
    reading: Pass<Book>,
    writing: Pass<Book>,
) -> Result<Pair<'g, S, C, P, N>, Apart<S>>
    requires slot { h < max_helpers }
    requires named { gate.now ≡ N.gate }
    requires reading { reading.gate ≡ gate.now }
    requires writing { writing.gate ≡ gate.now }
    requires name { writing.name ≡ writer_of h }
    requires new { own writing ≡ [] }
    ensures reader { IfOk result (λ pair. (pair.reader.spawner ≡ spawner)
        × (pair.reader.pass ≡ reading) × (pair.reader.h ≡ h) × (pair.reader.clock ≡ clock)) }
    ensures replier { IfOk result (λ pair. (pair.replier.pass ≡ writing)
        × (pair.replier.h ≡ h) × (pair.replier.last ≡ 0)) }
    ensures back { IfErr result (λ apart. (apart.spawner ≡ spawner)
        × (apart.reading ≡ reading) × (apart.writing ≡ writing)) }
{
    let Some((cutter, one, other)) = shared::<S, N>(alloc) else {
        return Err(Apart {
            spawner,
            reading,
            writing,
        });
    };
    Ok(Pair {
        reader: Reader::new(alloc, gate, h, spawner, clock, pause, cutter, one, reading),
        replier: Replier::new(gate, h, pause, other, writing),
    })
}

// What a reader has besides, and its and the replier's share of their handover.
fn shared<S: Spawner, N: GateName>(
    alloc: Global,
) -> Option<
    (
        LineCutter,
        Arc<Handover<S::Sink, S::Leash, N>>,
        Arc<Handover<S::Sink, S::Leash, N>>,
    ),
> {
    let cutter = LineCutter::new(alloc).ok()?;
    let one = Arc::new(alloc, Handover::new()).ok()?;
    let other = Arc::try_clone(&one).ok()?;
    Some((cutter, one, other))
}

/// What the jobs of a slot have, whether they have ended or were never run.
pub fn take_apart<'g, S: Spawner + Drop, C: Clock + Drop, P: Pause + Drop, N: GateName>(
    reader: Reader<'g, S, C, P, N>,
    replier: Replier<'g, S, P, N>,
) -> Apart<S>
    ensures spawner { result.spawner ≡ reader.entry.spawner }
    ensures passes { (result.reading ≡ reader.entry.pass)
        × (result.writing ≡ replier.entry.pass) }
{
    let (spawner, reading) = reader.apart();
    let writing = replier.apart();
    Apart {
        spawner,
        reading,
        writing,
    }
}
