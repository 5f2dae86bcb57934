//! The commands of a health check.
ghost use Rattle.std.specs.Prelude.{◌≡◌, ◌≤◌, ◌<◌, ◌+◌, ◌*◌, ◌^◌, length, IfOk};
ghost use Rattle.health_core.specs.Printing.{HopFits, IsSound, Says, announce_text, withdraw_text};
ghost use Rattle.health_core.specs.Printing.{command_text, command_said, med_at};

use crate::health::Health;
use crate::printed::Printed;
use route_values::{Hop, Keys, NoMemory};
use std::alloc::Global;

/// The command for the prefixes while the service is up or down. While it is up they are announced with their MED, and
/// while it is down with that of `down`, or they are withdrawn.
///
/// - `text`: the command's bytes, without a line feed.
/// - `says`: as a line of a helper they say just this to every neighbour.
pub fn command(alloc: Global, health: &Health, up: bool) -> Result<Printed, NoMemory>
    ensures text { IfOk result (λ printed. printed ≡ command_text health.now up) }
    ensures says { IsSound health.now
        → IfOk result (λ printed. Says printed (command_said health.now up)) }
{
    match med_at(health, up) {
        Some(med) => announcement(alloc, health.hop, med, &health.prefixes),
        None => withdrawal(alloc, &health.prefixes),
    }
}

fn med_at(health: &Health, up: bool) -> Option<u32>
    ensures { result ≡ med_at health.now up }
{
    if up { Some(health.up_med) } else { health.down }
}

// The command that announces prefixes with a next hop and a MED.
fn announcement(alloc: Global, hop: Hop, med: u32, prefixes: &Keys) -> Result<Printed, NoMemory>
    ensures text { IfOk result (λ printed. printed ≡ announce_text hop med prefixes.now) }
    ensures short { IfOk result (λ printed. length printed ≤ 100 + 44 * length prefixes.now) }
    ensures hop { HopFits hop }
    ensures med { med < 2 ^ 32 }
{
    let mut printed = Printed::new(alloc);
    printed.put(b"announce attributes next-hop ")?;
    printed.put_hop(hop)?;
    printed.put(b" med ")?;
    printed.put_number(med)?;
    printed.put(b" nlri")?;
    printed.put_prefixes(prefixes.as_slice())?;
    Ok(printed)
}

// The command that withdraws them.
fn withdrawal(alloc: Global, prefixes: &Keys) -> Result<Printed, NoMemory>
    ensures text { IfOk result (λ printed. printed ≡ withdraw_text prefixes.now) }
    ensures short { IfOk result (λ printed. length printed ≤ 100 + 44 * length prefixes.now) }
{
    let mut printed = Printed::new(alloc);
    printed.put(b"withdraw attributes nlri")?;
    printed.put_prefixes(prefixes.as_slice())?;
    Ok(printed)
}
