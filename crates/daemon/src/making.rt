//! Making the jobs, from the last to the first.
ghost use Rattle.std.specs.Prelude.{
  ◌≡◌,
  ◌<◌,
  ◌≤◌,
  ◌+◌,
  IfErr,
  IfOk,
  OnErr,
  OnOk,
  length,
  reverse,
  vec_capacity,
};
ghost use Rattle.config_model.specs.Limits.{max_helpers, max_peers};
ghost use Rattle.crew.specs.Views.{jobs_of};
ghost use Rattle.daemon.specs.Laid.{AreFresh, HasRoom, HaveSame, IsFull, IsLaid, IsUsedUp};
ghost use Rattle.daemon.specs.Making.{IsKept, Lays, Moves, SameRoom};

use crate::apart::{take_all_apart, turn_round};
use crate::pairs::add_slots;
use crate::stock::Stock;
use crate::talkers::add_talkers;
use answers::NoMemory;
use book_core::Book;
use book_gate::{Gate, GateName};
use config_model::Slots;
use control_worker::Keeper;
use crew::{Place, Worker};
use outside::{Clock, Dialer, Ear, Files, Pause, Spawner};
use std::alloc::Global;

// The jobs of all helper and neighbour slots of a stock, in front of the keeper.
fn add_rest<
    'g,
    F,
    S: Spawner + Drop,
    D: Dialer + Drop,
    E: Ear + Drop,
    C: Clock + Drop,
    P: Pause + Drop,
    N: GateName,
>(
    alloc: Global,
    gate: &'g Gate<Book>,
    clock: C,
    pause: P,
    stock: &mut Stock<S, D, E>,
    places: &mut Vec<Place<Worker<'g, F, S, D, E, C, P, N>>>,
) -> Result<(), NoMemory>
    requires named { gate.now ≡ N.gate }
    requires few_helpers { length stock.old.helpers.items ≤ max_helpers }
    requires few_peers { length stock.old.peers.items ≤ max_peers }
    requires ears { length stock.old.ears.items ≡ length stock.old.peers.items }
    requires passes { length stock.old.passes.items
        ≡ (length stock.old.helpers.items + length stock.old.helpers.items)
        + length stock.old.peers.items }
    requires fresh { AreFresh gate.now stock.old.passes.items }
    requires space { length places.old.items + length stock.old.passes.items
        ≤ vec_capacity places.old }
    ensures moves { Moves stock.old (reverse (jobs_of places.old.items)) stock.new
        (reverse (jobs_of places.new.items)) }
    ensures lays { OnOk result (Lays clock stock.old (reverse (jobs_of places.old.items)) stock.new
        (reverse (jobs_of places.new.items))) }
{
    add_talkers(alloc, gate, clock, pause, stock, places)?;
    add_slots(alloc, gate, clock, pause, stock, places)?;
    Ok(())
}

// The keeper alone, of the last pass of a stock. There is room for as many jobs more as passes are left.
fn start_keeper<'g, F: Files + Drop, S: Spawner + Drop, D, E, C, P: Pause + Drop, N: GateName>(
    alloc: Global,
    gate: &'g Gate<Book>,
    path: &'g str,
    slots: Slots,
    files: F,
    pause: P,
    stock: &mut Stock<S, D, E>,
) -> Result<Vec<Place<Worker<'g, F, S, D, E, C, P, N>>>, F>
    requires some { 0 < length stock.old.passes.items }
    requires fresh { AreFresh gate.now stock.old.passes.items }
    ensures kept { IfOk result (λ places. IsKept files path.now slots stock.old
        (reverse (jobs_of places.items)) stock.new) }
    ensures space { IfOk result (λ places. length places.items + length stock.new.passes.items
        ≤ vec_capacity places) }
    ensures room { SameRoom stock.old stock.new }
    ensures files { IfErr result (λ kept. kept ≡ files) }
    ensures same { OnErr result (stock.new ≡ stock.old) }
{
    let made: Result<Vec<Place<Worker<'g, F, S, D, E, C, P, N>>>, _> = Vec::with_capacity(
        alloc,
        stock.passes.len(),
    );
    let Ok(mut places) = made else {
        return Err(files);
    };
    let Some(pass) = stock.passes.pop() else {
        unreachable!()
    };
    let keeper = Keeper::new(alloc, gate, path, slots, files, pause, pass);
    places.push_reserved(Place {
        worker: Worker::Keeping(keeper),
        refused: false,
    });
    Ok(places)
}

/// Makes the jobs of all slots of a stock, each of the devices of its slot and of the pass of its number.
///
/// Readers and repliers come slot by slot, then the talkers, and last the keeper. Where there is no memory for them,
/// all is in the stock as before, and the files come back. `N` names the gate.
pub fn make_all<
    'g,
    F: Files + Drop,
    S: Spawner + Drop,
    D: Dialer + Drop,
    E: Ear + Drop,
    C: Clock + Drop,
    P: Pause + Drop,
    N: GateName,
>(
    alloc: Global,
    gate: &'g Gate<Book>,
    path: &'g str,
    slots: Slots,
    files: F,
    clock: C,
    pause: P,
    stock: &mut Stock<S, D, E>,
) -> Result<Vec<Place<Worker<'g, F, S, D, E, C, P, N>>>, F>
    requires named { gate.now ≡ N.gate }
    requires full { IsFull gate.now stock.old }
    ensures laid { IfOk result (λ places. IsLaid files path.now slots clock stock.old.peers.items
        stock.old.ears.items stock.old.helpers.items (jobs_of places.items)
        stock.old.passes.items) }
    ensures used { OnOk result (IsUsedUp stock.new) }
    ensures room { IfOk result (λ places. HasRoom stock.new (jobs_of places.items)) }
    ensures files { IfErr result (λ kept. kept ≡ files) }
    ensures back { OnErr result (HaveSame stock.old stock.new) }
{
    let mut places = match start_keeper(alloc, gate, path, slots, files, pause, stock) {
        Ok(places) => places,
        Err(files) => return Err(files),
    };
    let rest = add_rest(alloc, gate, clock, pause, stock, &mut places);
    turn_round(&mut places);
    match rest {
        Ok(()) => Ok(places),
        Err(NoMemory) => Err(take_all_apart(places, stock)),
    }
}
