//! The jobs of the neighbour slots: a talker each.
ghost use Rattle.std.specs.Prelude.{
  ◌≡◌,
  ◌<◌,
  ◌≤◌,
  ◌+◌,
  IfOk,
  OnErr,
  OnOk,
  length,
  reverse,
  vec_capacity,
};
ghost use Rattle.config_model.specs.Limits.{max_peers};
ghost use Rattle.crew.specs.Views.{jobs_of};
ghost use Rattle.daemon.specs.Laid.{AreFresh, HaveSame};
ghost use Rattle.daemon.specs.Making.{MovesPeers, SameRoom, TalkerMore};

use crate::stock::Stock;
use answers::NoMemory;
use book_core::Book;
use book_gate::{Gate, GateName};
use crew::{Place, Worker};
use outside::{Clock, Dialer, Ear, Pause, Spawner};
use peer_worker::{Talker, TalkerParts};
use std::alloc::Global;

// The job of the last neighbour slot of a stock.
fn make_talker<'g, S, D: Dialer + Drop, E: Ear + Drop, C: Clock + Drop, P: Pause + Drop>(
    alloc: Global,
    gate: &'g Gate<Book>,
    clock: C,
    pause: P,
    stock: &mut Stock<S, D, E>,
) -> Result<Talker<'g, D, E, C, P>, NoMemory>
    requires some { 0 < length stock.old.peers.items }
    requires few { length stock.old.peers.items ≤ max_peers }
    requires ears { length stock.old.ears.items ≡ length stock.old.peers.items }
    requires passes { length stock.old.peers.items ≤ length stock.old.passes.items }
    requires fresh { AreFresh gate.now stock.old.passes.items }
    ensures gave { IfOk result (λ talker. TalkerMore stock.new talker.dialer talker.ear talker.pass
        stock.old) }
    ensures slot { IfOk result (λ talker. talker.n ≡ length stock.new.peers.items) }
    ensures back { OnErr result (HaveSame stock.old stock.new) }
    ensures room { SameRoom stock.old stock.new }
{
    let Some(dialer) = stock.peers.pop() else {
        unreachable!()
    };
    let Some(ear) = stock.ears.pop() else {
        unreachable!()
    };
    let Some(pass) = stock.passes.pop() else {
        unreachable!()
    };
    let n = stock.peers.len();
    match Talker::new(alloc, gate, n, dialer, ear, clock, pause, pass) {
        Ok(talker) => Ok(talker),
        Err(parts) => {
            put_parts(parts, stock);
            Err(NoMemory)
        }
    }
}

// Puts what the job of a neighbour slot is made of back.
pub(crate) fn put_parts<S, D, E>(parts: TalkerParts<D, E>, stock: &mut Stock<S, D, E>)
    requires peer { length stock.old.peers.items < vec_capacity stock.old.peers }
    requires ear { length stock.old.ears.items < vec_capacity stock.old.ears }
    requires pass { length stock.old.passes.items < vec_capacity stock.old.passes }
    ensures more { TalkerMore stock.old parts.dialer parts.ear parts.pass stock.new }
    ensures room { SameRoom stock.old stock.new }
{
    let TalkerParts { dialer, ear, pass } = parts;
    stock.peers.push_reserved(dialer);
    stock.ears.push_reserved(ear);
    stock.passes.push_reserved(pass);
}

// The talker of the last neighbour slot of a stock, in front of the other jobs.
fn add_talker<
    'g,
    F,
    S: Spawner + Drop,
    D: Dialer + Drop,
    E: Ear + Drop,
    C: Clock + Drop,
    P: Pause + Drop,
    N: GateName,
>(
    alloc: Global,
    gate: &'g Gate<Book>,
    clock: C,
    pause: P,
    stock: &mut Stock<S, D, E>,
    places: &mut Vec<Place<Worker<'g, F, S, D, E, C, P, N>>>,
) -> Result<(), NoMemory>
    requires some { 0 < length stock.old.peers.items }
    requires few { length stock.old.peers.items ≤ max_peers }
    requires ears { length stock.old.ears.items ≡ length stock.old.peers.items }
    requires passes { length stock.old.peers.items ≤ length stock.old.passes.items }
    requires fresh { AreFresh gate.now stock.old.passes.items }
    requires space { length places.old.items + length stock.old.passes.items
        ≤ vec_capacity places.old }
    ensures moves { MovesPeers stock.old (reverse (jobs_of places.old.items)) stock.new
        (reverse (jobs_of places.new.items)) }
    ensures less { OnOk result (length stock.new.peers.items < length stock.old.peers.items) }
    ensures never_more { length stock.new.peers.items ≤ length stock.old.peers.items }
    ensures space { vec_capacity places.new ≡ vec_capacity places.old }
{
    let talker = make_talker(alloc, gate, clock, pause, stock)?;
    places.push_reserved(Place {
        worker: Worker::Talking(talker),
        refused: false,
    });
    Ok(())
}

// The talkers of all neighbour slots of a stock, in front of the other jobs.
pub(crate) fn add_talkers<
    'g,
    F,
    S: Spawner + Drop,
    D: Dialer + Drop,
    E: Ear + Drop,
    C: Clock + Drop,
    P: Pause + Drop,
    N: GateName,
>(
    alloc: Global,
    gate: &'g Gate<Book>,
    clock: C,
    pause: P,
    stock: &mut Stock<S, D, E>,
    places: &mut Vec<Place<Worker<'g, F, S, D, E, C, P, N>>>,
) -> Result<(), NoMemory>
    requires few { length stock.old.peers.items ≤ max_peers }
    requires ears { length stock.old.ears.items ≡ length stock.old.peers.items }
    requires passes { length stock.old.peers.items ≤ length stock.old.passes.items }
    requires fresh { AreFresh gate.now stock.old.passes.items }
    requires space { length places.old.items + length stock.old.passes.items
        ≤ vec_capacity places.old }
    ensures moves { MovesPeers stock.old (reverse (jobs_of places.old.items)) stock.new
        (reverse (jobs_of places.new.items)) }
    ensures all { OnOk result (length stock.new.peers.items ≡ 0) }
    ensures space { vec_capacity places.new ≡ vec_capacity places.old }
{
    'slots: while !stock.peers.is_empty() {
        add_talker(alloc, gate, clock, pause, stock, places)?;
    }
    Ok(())
}
