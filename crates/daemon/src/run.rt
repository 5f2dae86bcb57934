//! The call that runs the daemon.
ghost use Rattle.std.specs.Prelude.{◌≡◌, ◌⊎◌, ◌≤◌, All, List, ℕ, length, map, IfSome, IfNone};
ghost use Rattle.config_model.specs.Limits.{max_helpers, max_peers};
ghost use Rattle.config_model.specs.declared.fault.ConfigFault.{ConfigFault as Fault};
ghost use Rattle.book_gate.specs.Known.{first_known};
ghost use Rattle.helper_worker.specs.Rounds.{told as told_by};
ghost use Rattle.outside.specs.Told.{Rose};
ghost use Rattle.peer_worker.specs.Rounds.{told};
ghost use Rattle.daemon.specs.Ending.{
  AreSlots,
  EndsAs,
  HasFiles,
  HasToldConfig,
  HasToldFault,
  IsBack,
  IsLastOf,
  IsOpenedBy,
  run_words,
  status_by,
  status_for,
};

use crate::running::{ConfigPath, Left, run_jobs, workers};
use crate::stock::Stock;
use crate::words::run_path;
use crate::world::{Ran, World};
use book_core::Book;
use book_gate::{Gate, Opened, Pass};
use book_gate_many::{join_many, split_many};
use book_history::NotRead;
use config_files::read_config_at;
use config_model::{Config, Slots};
use config_reader::files_say_one;
use outside::{Clock, Dialer, Ear, Files, Pause, Spawner};
use script_play::Status;
use std::alloc::Global;
use std::hash::RandomState;
use std::marker::Brand;
use std::snapshot::Snapshot;
use std::sync::Wait;
use std::thread::Threads;

/// Runs the daemon that the words spell, until all its workers have ended.
///
/// `run CONFIG` reads the file at this path as a configuration for as many slots as the world has helpers and
/// neighbours, opens the engine by it, and runs its workers beside each other. Any other words are `Usage`. A file that
/// isn't read, or is no configuration, ends the call before a worker is started, and so does want of memory. `NoCrew`
/// says that a worker was refused its thread: each such worker was called off, which ended the daemon.
///
/// Each device comes back in its place, whatever the status. It isn't promised that the call returns.
pub fn exabgp_run<
    'a,
    R: Threads + Wait + Sync,
    F: Files + Send + Drop,
    S: Spawner + Send + Drop,
    D: Dialer + Send + Drop,
    C: Clock + Drop,
    P: Pause + Drop,
    E: Ear + Send + Drop,
>(
    rt: &R,
    alloc: Global,
    words: &[&str],
    world: World<'a, F, S, D, C, P, E>,
) -> Ran<'a, F, S, D, C, P, E>
    requires helpers { length world.helpers.items ≤ max_helpers }
    requires peers { length world.peers.items ≤ max_peers }
    requires ears { length world.ears.items ≡ length world.peers.items }

    // Words that spell no command.
    ensures usage { (result.status ≡ Status.Usage) → (path : List ℕ)
        → map (λ word. word.now) words.now ≡ run_words path → ⊥ }
    ensures only_usage { ((path : List ℕ) → map (λ word. word.now) words.now ≡ run_words path → ⊥)
        → result.status ≡ Status.Usage }
    ensures same { result.status ≡ Status.Usage → result.world ≡ world.entry }

    // What each status leaves, and what there is afterwards, whatever the status.
    ensures ends { (path : List ℕ) → map (λ word. word.now) words.now ≡ run_words path
        → EndsAs F.content F.faults
        (λ spawner. told_by (S.children spawner) (S.asked spawner) (S.failed spawner))
        (λ dialer. told (D.links dialer) (D.asked dialer) (D.failed dialer)) C.moments
        path world.entry result.status result.world }
    ensures files { HasFiles F.content F.lent world.entry result.world }
    ensures back { IsBack world.entry result.world }

    // A file that has a first fault is refused for it, and by one that is a configuration the workers run to their end,
    // if memory suffices and nothing fails.
    ensures refuses { (path : List ℕ) (fault : Fault)
        → map (λ word. word.now) words.now ≡ run_words path
        → HasToldFault F.content path world.entry fault
        → ¬ Rose (F.faults world.entry.files) (F.faults result.world.files)
        → ¬ Rose world.entry.crew.faults result.world.crew.faults
        → (result.status ≡ Status.ConfigRefused fault) ⊎ (result.status ≡ Status.NoMemory) }
    ensures complete { (path : List ℕ) → map (λ word. word.now) words.now ≡ run_words path
        → HasToldConfig F.content path world.entry
        → ¬ Rose (F.faults world.entry.files) (F.faults result.world.files)
        → ¬ Rose world.entry.crew.faults result.world.crew.faults
        → (result.status ≡ Status.Ok) ⊎ (result.status ≡ Status.NoMemory) }
{
    // For the proof: by the law a file is one configuration or has one first fault.
    files_say_one();
    match run_path(words) {
        Some(path) => run_file(rt, alloc, path, world),
        None => Ran {
            status: Status::Usage,
            world,
        },
    }
}

// Runs the daemon by the configuration of the file at a path.
fn run_file<
    'a,
    R: Threads + Wait + Sync,
    F: Files + Send + Drop,
    S: Spawner + Send + Drop,
    D: Dialer + Send + Drop,
    C: Clock + Drop,
    P: Pause + Drop,
    E: Ear + Send + Drop,
>(
    rt: &R,
    alloc: Global,
    path: &str,
    mut world: World<'a, F, S, D, C, P, E>,
) -> Ran<'a, F, S, D, C, P, E>
    requires helpers { length world.helpers.items ≤ max_helpers }
    requires peers { length world.peers.items ≤ max_peers }
    requires ears { length world.ears.items ≡ length world.peers.items }
    ensures ends { EndsAs F.content F.faults
        (λ spawner. told_by (S.children spawner) (S.asked spawner) (S.failed spawner))
        (λ dialer. told (D.links dialer) (D.asked dialer) (D.failed dialer)) C.moments
        path.now world.entry result.status result.world }
    ensures files { HasFiles F.content F.lent world.entry result.world }
    ensures back { IsBack world.entry result.world }
{
    let slots = Slots {
        helpers: world.helpers.len(),
        peers: world.peers.len(),
    };
    let config = match read_config_at(alloc, &mut world.files, path, slots) {
        Ok(config) => config,
        Err(why) => {
            return Ran {
                status: status_of(why),
                world,
            };
        }
    };
    match open_gate(alloc, config, world.hasher) {
        Some(opened) => run_gate(rt, alloc, path, slots, opened, world),
        None => Ran {
            status: Status::NoMemory,
            world,
        },
    }
}

// Why a configuration that wasn't read ends the command.
fn status_of(why: NotRead) -> Status
    ensures { result ≡ status_for why }
{
    match why {
        NotRead::ReadFault => Status::ConfigRead,
        NotRead::Refused(fault) => Status::ConfigRefused(fault),
        NotRead::NoMemory => Status::NoMemory,
    }
}

// A gate round the book of a configuration.
fn open_gate(alloc: Global, config: Config, hasher: RandomState) -> Option<Opened<Book>>
    ensures { IfSome result (λ opened. opened.pass ≡ first_known opened.gate config) }
{
    let start = Snapshot::of(&config);
    let book = Book::open(alloc, config, hasher).ok()?;
    Gate::open(alloc, book, start).ok()
}

// Runs the daemon behind a gate that was opened with the configuration of the file at the path.
fn run_gate<
    'a,
    R: Threads + Wait + Sync,
    F: Files + Send + Drop,
    S: Spawner + Send + Drop,
    D: Dialer + Send + Drop,
    C: Clock + Drop,
    P: Pause + Drop,
    E: Ear + Send + Drop,
>(
    rt: &R,
    alloc: Global,
    path: &str,
    slots: Slots,
    opened: Opened<Book>,
    world: World<'a, F, S, D, C, P, E>,
) -> Ran<'a, F, S, D, C, P, E>
    requires helpers { length world.helpers.items ≤ max_helpers }
    requires peers { length world.peers.items ≤ max_peers }
    requires ears { length world.ears.items ≡ length world.peers.items }
    requires slots { AreSlots slots world }
    requires opened { IsOpenedBy (F.content world.files) path.now slots opened.gate opened.pass }
    ensures ends { EndsAs F.content F.faults
        (λ spawner. told_by (S.children spawner) (S.asked spawner) (S.failed spawner))
        (λ dialer. told (D.links dialer) (D.asked dialer) (D.failed dialer)) C.moments
        path.now world.entry result.status result.world }
    ensures files { HasFiles F.content F.lent world.entry result.world }
    ensures back { IsBack world.entry result.world }
{
    let Opened { gate, mut pass } = opened;
    let Ok(passes) = split_many(alloc, &gate, &mut pass, workers(slots)) else {
        return Ran {
            status: Status::NoMemory,
            world,
        };
    };
    let World {
        files,
        helpers,
        peers,
        ears,
        clock,
        pause,
        hasher,
        mut crew,
        last,
    } = world;
    let path = ConfigPath { text: path };
    let mut stock = Stock {
        passes,
        helpers,
        peers,
        ears,
    };
    let Left { files, all } = run_jobs::<R, F, S, D, E, C, P, Brand>(
        rt, alloc, &gate, path, slots, files, clock, pause, &mut crew, &mut stock,
    );
    let Stock {
        passes,
        helpers,
        peers,
        ears,
    } = stock;
    let (status, last) = end(&gate, pass, passes, all, last);
    Ran {
        status,
        world: World {
            files,
            helpers,
            peers,
            ears,
            clock,
            pause,
            hasher,
            crew,
            last,
        },
    }
}

// How the command ends where all workers ran, where one was refused, or where there was no memory; and the last pass,
// with which those of the workers are joined where they ran.
fn end(
    gate: &Gate<Book>,
    mut pass: Pass<Book>,
    passes: Vec<Pass<Book>>,
    all: Option<bool>,
    last: Option<Pass<Book>>,
) -> (Status, Option<Pass<Book>>)
    requires pass { pass.gate ≡ gate.now }
    requires passes { All (λ other. other.gate ≡ gate.now) passes.items }
    ensures status { result.0 ≡ status_by all }
    ensures none { IfNone all (result.1 ≡ last) }
    ensures joined { IfSome all (λ every. IsLastOf pass passes.items result.1) }
{
    match all {
        None => (Status::NoMemory, last),
        Some(every) => {
            join_many(gate, &mut pass, passes);
            (status_by(every), Some(pass))
        }
    }
}

// How the command ends where all workers ran, or one was refused.
fn status_by(every: bool) -> Status
    ensures { result ≡ status_by (Some every) }
{
    if every { Status::Ok } else { Status::NoCrew }
}
