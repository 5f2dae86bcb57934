//! The jobs of the helper slots: a reader and a replier each.
ghost use Rattle.std.specs.Prelude.{
  ◌≡◌,
  ◌<◌,
  ◌≤◌,
  ◌+◌,
  IfOk,
  OnErr,
  OnOk,
  length,
  reverse,
  vec_capacity,
};
ghost use Rattle.config_model.specs.Limits.{max_helpers};
ghost use Rattle.crew.specs.Views.{jobs_of};
ghost use Rattle.daemon.specs.Laid.{AreFresh, HaveSame};
ghost use Rattle.daemon.specs.Making.{MovesHelpers, PairMore, SameRoom};

use crate::stock::Stock;
use answers::NoMemory;
use book_core::Book;
use book_gate::{Gate, GateName};
use crew::{Place, Worker};
use helper_worker::{Apart, Pair, make_pair};
use outside::{Clock, Pause, Spawner};
use std::alloc::Global;

// The jobs of the last helper slot of a stock.
fn make_slot<'g, S: Spawner + Drop, D, E, C: Clock + Drop, P: Pause + Drop, N: GateName>(
    alloc: Global,
    gate: &'g Gate<Book>,
    clock: C,
    pause: P,
    stock: &mut Stock<S, D, E>,
) -> Result<Pair<'g, S, C, P, N>, NoMemory>
    requires named { gate.now ≡ N.gate }
    requires some { 0 < length stock.old.helpers.items }
    requires few { length stock.old.helpers.items ≤ max_helpers }
    requires two_each { length stock.old.passes.items
        ≡ length stock.old.helpers.items + length stock.old.helpers.items }
    requires fresh { AreFresh gate.now stock.old.passes.items }
    ensures gave { IfOk result (λ pair. PairMore stock.new pair.reader.spawner pair.reader.pass
        pair.replier.pass stock.old) }
    ensures slot { IfOk result (λ pair. pair.reader.h ≡ length stock.new.helpers.items) }
    ensures clock { IfOk result (λ pair. pair.reader.clock ≡ clock) }
    ensures same { IfOk result (λ pair. pair.replier.h ≡ pair.reader.h) }
    ensures none { IfOk result (λ pair. pair.replier.last ≡ 0) }
    ensures back { OnErr result (HaveSame stock.old stock.new) }
    ensures room { SameRoom stock.old stock.new }
{
    let Some(spawner) = stock.helpers.pop() else {
        unreachable!()
    };
    let Some(writing) = stock.passes.pop() else {
        unreachable!()
    };
    let Some(reading) = stock.passes.pop() else {
        unreachable!()
    };
    let h = stock.helpers.len();
    match make_pair(alloc, gate, h, spawner, clock, pause, reading, writing) {
        Ok(pair) => Ok(pair),
        Err(apart) => {
            put_slot(apart, stock);
            Err(NoMemory)
        }
    }
}

// Puts what the jobs of a helper slot are made of back.
pub(crate) fn put_slot<S, D, E>(apart: Apart<S>, stock: &mut Stock<S, D, E>)
    requires helper { length stock.old.helpers.items < vec_capacity stock.old.helpers }
    requires passes { length stock.old.passes.items + 1 < vec_capacity stock.old.passes }
    ensures more { PairMore stock.old apart.spawner apart.reading apart.writing stock.new }
    ensures room { SameRoom stock.old stock.new }
{
    let Apart {
        spawner,
        reading,
        writing,
    } = apart;
    stock.helpers.push_reserved(spawner);
    stock.passes.push_reserved(reading);
    stock.passes.push_reserved(writing);
}

// The reader and the replier of the last helper slot of a stock, in front of the other jobs.
fn add_slot<'g, F, S: Spawner + Drop, D, E, C: Clock + Drop, P: Pause + Drop, N: GateName>(
    alloc: Global,
    gate: &'g Gate<Book>,
    clock: C,
    pause: P,
    stock: &mut Stock<S, D, E>,
    places: &mut Vec<Place<Worker<'g, F, S, D, E, C, P, N>>>,
) -> Result<(), NoMemory>
    requires named { gate.now ≡ N.gate }
    requires some { 0 < length stock.old.helpers.items }
    requires few { length stock.old.helpers.items ≤ max_helpers }
    requires two_each { length stock.old.passes.items
        ≡ length stock.old.helpers.items + length stock.old.helpers.items }
    requires fresh { AreFresh gate.now stock.old.passes.items }
    requires space { length places.old.items + length stock.old.passes.items
        ≤ vec_capacity places.old }
    ensures moves { MovesHelpers clock stock.old (reverse (jobs_of places.old.items)) stock.new
        (reverse (jobs_of places.new.items)) }
    ensures less { OnOk result (length stock.new.helpers.items < length stock.old.helpers.items) }
    ensures never_more { length stock.new.helpers.items ≤ length stock.old.helpers.items }
    ensures space { vec_capacity places.new ≡ vec_capacity places.old }
{
    let pair = make_slot(alloc, gate, clock, pause, stock)?;
    places.push_reserved(Place {
        worker: Worker::Replying(pair.replier),
        refused: false,
    });
    places.push_reserved(Place {
        worker: Worker::Reading(pair.reader),
        refused: false,
    });
    Ok(())
}

// The readers and repliers of all helper slots of a stock, in front of the other jobs.
pub(crate) fn add_slots<
    'g,
    F,
    S: Spawner + Drop,
    D,
    E,
    C: Clock + Drop,
    P: Pause + Drop,
    N: GateName,
>(
    alloc: Global,
    gate: &'g Gate<Book>,
    clock: C,
    pause: P,
    stock: &mut Stock<S, D, E>,
    places: &mut Vec<Place<Worker<'g, F, S, D, E, C, P, N>>>,
) -> Result<(), NoMemory>
    requires named { gate.now ≡ N.gate }
    requires few { length stock.old.helpers.items ≤ max_helpers }
    requires two_each { length stock.old.passes.items
        ≡ length stock.old.helpers.items + length stock.old.helpers.items }
    requires fresh { AreFresh gate.now stock.old.passes.items }
    requires space { length places.old.items + length stock.old.passes.items
        ≤ vec_capacity places.old }
    ensures moves { MovesHelpers clock stock.old (reverse (jobs_of places.old.items)) stock.new
        (reverse (jobs_of places.new.items)) }
    ensures all { OnOk result (length stock.new.helpers.items ≡ 0) }
{
    'slots: while !stock.helpers.is_empty() {
        add_slot(alloc, gate, clock, pause, stock, places)?;
    }
    Ok(())
}
