//! The devices of the daemon, over the system: one for each slot that a configuration can have.
ghost use Rattle.std.specs.Prelude.{◌≡◌, ◌≤◌, IfOk, length};
ghost use Rattle.config_model.specs.Limits.{max_helpers, max_peers};

use answers::NoMemory;
use config_model::{MAX_HELPERS, MAX_PEERS};
use daemon::World;
use exa_top::Status;
use outside::{CrewPlan, NoEar, Seat};
use outside_std::{Board, BoardPause, ProcessSpawner, StdFiles, SystemClock, TcpDialer};
use std::hash::RandomState;

/// The daemon's world over the system.
pub type SystemWorld<'a> = World<
    'a,
    StdFiles<'a, HostRuntime>,
    ProcessSpawner<'a, HostRuntime>,
    TcpDialer<'a, HostRuntime>,
    SystemClock<&'a HostRuntime>,
    BoardPause<'a>,
    NoEar,
>;

/// The bells of all workers: `NoMemory` where memory or the system's descriptors are wanting.
pub fn board_of(rt: &HostRuntime) -> Result<Board, Status> {
    match Board::new(rt.alloc(), rt, MAX_HELPERS, MAX_PEERS) {
        Ok(board) => Ok(board),
        Err(_) => Err(Status::NoMemory),
    }
}

// The state by which the engine's tables hash, from the system's random bytes.
fn hasher_of(rt: &HostRuntime) -> Result<RandomState, Status> {
    match RandomState::new(rt) {
        Ok(hasher) => Ok(hasher),
        Err(_) => Err(Status::ReadFault),
    }
}

// What starts the helpers, one for each slot that the board has.
fn spawners_of<'a>(
    rt: &'a HostRuntime,
    board: &'a Board,
) -> Result<Vec<ProcessSpawner<'a, HostRuntime>>, NoMemory>
    ensures { IfOk result (λ spawners. length spawners.items ≤ max_helpers) }
{
    let mut spawners = Vec::new(rt.alloc());
    'slots: for slot in 0..MAX_HELPERS {
        let Some(post) = board.post(slot) else { break };
        spawners.push(ProcessSpawner::new(rt, rt.alloc(), post))?;
    }
    Ok(spawners)
}

// What connects to the neighbours, one for each slot that the board has.
fn dialers_of<'a>(
    rt: &'a HostRuntime,
    board: &'a Board,
) -> Result<Vec<TcpDialer<'a, HostRuntime>>, NoMemory>
    ensures { IfOk result (λ dialers. length dialers.items ≤ max_peers) }
{
    let mut dialers = Vec::new(rt.alloc());
    'slots: for slot in 0..MAX_PEERS {
        let Some(bell) = board.bell(Seat::Talker(slot)) else {
            break;
        };
        dialers.push(TcpDialer::new(rt, bell))?;
    }
    Ok(dialers)
}

// So many ears that hear nothing.
fn ears_of(rt: &HostRuntime, count: usize) -> Result<Vec<NoEar>, NoMemory>
    ensures { IfOk result (λ ears. length ears.items ≡ count) }
{
    let mut ears = Vec::new(rt.alloc());
    'slots: for slot in 0..count {
        ears.push(NoEar)?;
    }
    Ok(ears)
}

/// The daemon's devices, whose waits are at the bells of this board.
pub fn world_of<'a>(rt: &'a HostRuntime, board: &'a Board) -> Result<SystemWorld<'a>, Status>
    ensures helpers { IfOk result (λ world. length world.helpers.items ≤ max_helpers) }
    ensures peers { IfOk result (λ world. length world.peers.items ≤ max_peers) }
    ensures ears { IfOk result (λ world.
        length world.ears.items ≡ length world.peers.items) }
{
    let hasher = hasher_of(rt)?;
    let Ok(helpers) = spawners_of(rt, board) else {
        return Err(Status::NoMemory);
    };
    let Ok(peers) = dialers_of(rt, board) else {
        return Err(Status::NoMemory);
    };
    let Ok(ears) = ears_of(rt, peers.len()) else {
        return Err(Status::NoMemory);
    };
    Ok(World {
        files: StdFiles::new(rt),
        helpers,
        peers,
        ears,
        clock: SystemClock::new(rt),
        pause: BoardPause::new(board, Seat::Keeper),
        hasher,
        crew: CrewPlan::new(&[]),
        last: None,
    })
}
