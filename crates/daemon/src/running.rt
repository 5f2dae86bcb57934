//! From the gate to the workers' end.
ghost use Rattle.std.specs.Prelude.{◌≡◌, ◌≤◌, IfNone, IfSome, false, length, true};
ghost use Rattle.config_model.specs.Limits.{max_helpers, max_peers};
ghost use Rattle.crew.specs.Crews.{RefusesNone, RefusesOne};
ghost use Rattle.daemon.specs.Done.{JobsDone};
ghost use Rattle.daemon.specs.Laid.{HaveSame, IsFull};
ghost use Rattle.daemon.specs.Names.{workers};
ghost use Rattle.helper_worker.specs.Rounds.{told as told_by};
ghost use Rattle.outside.specs.Refusals.{is_refused};
ghost use Rattle.outside.specs.Told.{Rose};
ghost use Rattle.peer_worker.specs.Rounds.{told};

use crate::apart::take_all_apart;
use crate::making::make_all;
use crate::stock::Stock;
use book_core::Book;
use book_gate::{Gate, GateName};
use config_model::Slots;
use crew::{Place, Worked, Worker, work};
use outside::{Clock, CrewPlan, Dialer, Ear, Files, Pause, Spawner};
use std::alloc::Global;
use std::sync::Wait;
use std::thread::Threads;

/// The path of a configuration.
///
/// A struct, since `N` can't be chosen at a call that takes a `&str`.
#[derive(Clone, Copy)]
pub struct ConfigPath<'a> {
    pub text: &'a str,
}

/// What is left of the jobs.
#[derive(Drop)]
pub struct Left<F> {
    pub files: F,
    /// Whether all jobs were run; None where there was no memory, and none was.
    pub all: Option<bool>,
}

/// How many workers there are for so many slots.
pub fn workers(slots: Slots) -> usize
    requires helpers { slots.helpers ≤ max_helpers }
    requires peers { slots.peers ≤ max_peers }
    ensures { result ≡ workers slots.helpers slots.peers }
{
    slots.helpers + slots.helpers + slots.peers + 1
}

/// Makes the jobs of all slots, does them beside each other until all have ended, and takes them apart. `N` names the
/// gate.
///
/// A job that the crew refuses is called off instead. Where there is no memory, none is started and all is as before.
pub fn run_jobs<
    'g,
    R: Threads + Wait + Sync,
    F: Files + Send + Drop,
    S: Spawner + Send + Drop,
    D: Dialer + Send + Drop,
    E: Ear + Send + Drop,
    C: Clock + Drop,
    P: Pause + Drop,
    N: GateName + Send,
>(
    rt: &R,
    alloc: Global,
    gate: &'g Gate<Book>,
    path: ConfigPath<'g>,
    slots: Slots,
    files: F,
    clock: C,
    pause: P,
    crew: &mut CrewPlan<'_>,
    stock: &mut Stock<S, D, E>,
) -> Left<F>
    requires named { gate.now ≡ N.gate }
    requires full { IsFull gate.now stock.old }
    requires helpers { slots.helpers ≡ length stock.old.helpers.items }
    requires peers { slots.peers ≡ length stock.old.peers.items }
    ensures none { IfNone result.all (HaveSame stock.old stock.new × (result.files ≡ files)
        × (crew.new ≡ crew.old)) }
    ensures done { IfSome result.all (λ all. JobsDone F.content F.faults F.lent
        (λ spawner. told_by (S.children spawner) (S.asked spawner) (S.failed spawner))
        (λ dialer. told (D.links dialer) (D.asked dialer) (D.failed dialer))
        (is_refused crew.old) (C.moments clock) path.entry.text.now slots
        stock.old.helpers.items stock.new.helpers.items
        stock.old.peers.items stock.new.peers.items files result.files
        stock.old.passes.items stock.new.passes.items) }
    ensures helpers { length stock.new.helpers.items ≡ length stock.old.helpers.items }
    ensures peers { length stock.new.peers.items ≡ length stock.old.peers.items }
    ensures ears { length stock.new.ears.items ≡ length stock.old.ears.items }
    ensures all { IfSome result.all (λ all. all ≡ true
        → RefusesNone crew.old (workers slots.helpers slots.peers)) }
    ensures one { IfSome result.all (λ all. all ≡ false
        → RefusesOne crew.old (workers slots.helpers slots.peers)
        × Rose crew.old.faults crew.new.faults) }
    ensures refused { crew.new.refused ≡ crew.old.refused }
{
    let made = make_all(alloc, gate, path.text, slots, files, clock, pause, stock);
    let places: Vec<Place<Worker<'g, F, S, D, E, C, P, N>>> = match made {
        Ok(places) => places,
        Err(files) => return Left { files, all: None },
    };
    let Worked { places, all } = work(rt, crew, places);
    Left {
        files: take_all_apart(places, stock),
        all: Some(all),
    }
}
