//! Which neighbour slots a command is for. No table is looked at.
ghost use Rattle.std.specs.Prelude.{◌≡◌, ◌↔◌, length, Any, IsTrue};
ghost use Rattle.std.specs.Option.{option_copied};
ghost use Rattle.config_model.specs.Limits.{max_peers};
ghost use Rattle.config_model.specs.Selected.{IsSelected};
ghost use Rattle.book_history.specs.Selecting.{first_family, own_family, pick_of};
ghost use Rattle.book_core.specs.Choosing.{is_chosen, section_of, AreChosen};

use crate::peering::Peering;
use command_grammar::Command;
use config_model::{MAX_PEERS, Names, Process};
use route_values::{Family, Hop, Keys, Selector, Settings, is_picked};

/// Which slots are chosen, by their numbers.
pub type Chosen = [bool; MAX_PEERS];

/// The slots that a command of this process is for. It takes no memory.
pub fn choose(process: Option<&Process>, command: &Command, peers: &[Peering]) -> Chosen
    requires { length peers.now ≡ max_peers }
    ensures { AreChosen (option_copied process.entry) command.now peers.now result }
{
    let mut chosen = [false; MAX_PEERS];
    'peers: for n in 0..MAX_PEERS {
        chosen[n] = is_chosen(process, command, &peers[n]);
    }
    chosen
}

// Whether a command of this process is for the neighbour of a slot.
fn is_chosen(process: Option<&Process>, command: &Command, peering: &Peering) -> bool
    ensures { result ≡ is_chosen (option_copied process.entry) command.now peering.now }
{
    let Some(pick) = pick_of(command) else {
        return false;
    };
    let Some(process) = process else {
        return false;
    };
    let Some(settings) = peering.slot.settings() else {
        return false;
    };
    is_meant(
        process,
        pick,
        own_family(command),
        &settings,
        &peering.names,
    )
}

// Whether a command with this selector and family is for a neighbour with these settings that hears these names.
fn is_meant(
    process: &Process,
    pick: &Selector,
    family: Option<Family>,
    settings: &Settings,
    names: &Names,
) -> bool
    ensures { IsTrue result ↔ IsSelected (section_of settings.now names.now)
        process.now.name.items pick.now family }
{
    hears(names, &process.name)
        && is_picked(pick, settings)
        && family.is_none_or(|family| family == settings.local.family())
}

// Whether a name is among these.
fn hears(names: &Names, process: &[u8]) -> bool
    ensures { IsTrue result ↔ Any (λ name. name.items ≡ process.now) names.now }
{
    names
        .as_slice()
        .iter()
        .any(|name| name.as_slice() == process)
}

/// The selector of a command; None of one that is for no neighbour.
pub fn pick_of(command: &Command) -> Option<&Selector>
    ensures { option_copied result ≡ pick_of command.now }
{
    match command {
        Command::Announce { pick, .. } => Some(pick),
        Command::Withdraw { pick, .. } => Some(pick),
        Command::Flush(pick) => Some(pick),
        Command::Clear(pick) => Some(pick),
        Command::Show { pick, .. } => Some(pick),
        Command::Teardown(pick, _) => Some(pick),
        Command::Reload => None,
        Command::Shutdown => None,
        Command::DisableAck => None,
        Command::EnableAck => None,
        Command::Comment => None,
    }
}

// The family that the own address has to have for a command; None where it makes no difference.
fn own_family(command: &Command) -> Option<Family>
    ensures { result ≡ own_family command.now }
{
    match command {
        Command::Announce { keys, attrs, .. } => match attrs.hop {
            Hop::Own => first_family(keys),
            Hop::Is(_) => None,
        },
        _ => None,
    }
}

// The family of the first key.
fn first_family(keys: &Keys) -> Option<Family>
    ensures { result ≡ first_family keys.now }
{
    match keys.as_slice().first() {
        Some(key) => Some(key.family()),
        None => None,
    }
}
