//! The configuration of commands that name no file.
ghost use Rattle.std.specs.Prelude.{◌≡◌, codes, IfOk, length, ◌≤◌};
ghost use Rattle.exa_top.specs.Plain.{plain_neighbor, plain_process, plain_sections};
ghost use Rattle.exa_top.specs.Plain.{plain_settings};

use answers::NoMemory;
use arrayvec::ArrayVec;
use config_model::{Config, Draft, Neighbor, Process, Settings, check};
use route_values::{Addr, Items};
use std::alloc::Global;

// The neighbour's address, 127.0.0.1.
const PEER: u32 = 0x7F00_0001;

/// The configuration of one neighbour, 127.0.0.1, and of one process that it hears, `h`, which is run by that word. The
/// session between the AS numbers is held from this IPv4 address, which is the router identifier too. It carries IPv4
/// alone; all else is as a file has it that doesn't say it.
pub fn plain_config(
    alloc: Global,
    local_as: u32,
    peer_as: u32,
    local: u32,
) -> Result<Config, NoMemory>
    ensures { IfOk result (λ config. config ≡ plain_sections local_as peer_as local) }
{
    let mut draft = Draft::new(alloc);
    draft.add_process(process())?;
    draft.add_neighbor(neighbor(alloc, local_as, peer_as, local)?)?;
    match check(draft) {
        Ok(config) => Ok(config),
        Err(_) => unreachable!(),
    }
}

// The process.
fn process() -> Process
    ensures { result ≡ plain_process }
{
    Process {
        name: letter(),
        run: letter(),
        json: false,
        respawn: true,
    }
}

// The neighbour.
fn neighbor(alloc: Global, local_as: u32, peer_as: u32, local: u32) -> Result<Neighbor, NoMemory>
    ensures { IfOk result (λ neighbor. neighbor ≡ plain_neighbor local_as peer_as local) }
{
    let mut processes = Items::new(alloc);
    processes.push(letter())?;
    Ok(Neighbor {
        settings: settings(local_as, peer_as, local),
        statics: Items::new(alloc),
        processes,
    })
}

fn settings(local_as: u32, peer_as: u32, local: u32) -> Settings
    ensures { result ≡ plain_settings local_as peer_as local }
{
    Settings {
        peer: Addr::V4(PEER),
        local: Addr::V4(local),
        port: 179,
        local_as,
        peer_as,
        router_id: local,
        hold: 180,
        ipv4: true,
        ipv6: false,
        ipv4_send: false,
        ipv6_send: false,
        ipv4_receive: false,
        ipv6_receive: false,
        refresh: true,
        extended: false,
    }
}

// The word `h`.
fn letter<const N: usize>() -> ArrayVec<u8, N>
    requires { 1 ≤ N }
    ensures { result.items ≡ codes "h" }
{
    let mut letter = ArrayVec::new();
    let _ = letter.try_extend_from_slice(b"h");
    letter
}
