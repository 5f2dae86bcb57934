//! What a reload will do to one neighbour slot: here all is done that takes memory.
ghost use Rattle.std.specs.Prelude.{◌≡◌, ◌↔◌, [], false, true, IfOk, IfSome, IsTrue, None, Some};
ghost use Rattle.std.specs.Option.{option_copied};
ghost use Rattle.route_values.specs.Addr.{family_of};
ghost use Rattle.route_values.specs.Key.{same_addr};
ghost use Rattle.config_model.specs.Plan.{same_settings};
ghost use Rattle.book_core.specs.Changing.{IsPlanned, IsSection};
ghost use Rattle.book_core.specs.Moves.{Moves};
ghost use Rattle.book_core.specs.Planning.{IsHeld, PlansPlaced};

use crate::changing::Change;
use crate::names::copy_names;
use crate::peering::Peering;
use crate::tables::empty_table;
use answers::NoMemory;
use config_model::Neighbor;
use peer_book::{Code, PeerSlot};
use route_values::{Addr, Items, Settings};
use std::alloc::Global;
use std::hash::RandomState;

// A Cease (RFC 4271, section 6.7).
const CEASE: u8 = 6;

// The subcodes of a peer that is de-configured, and of another change of the configuration (RFC 4486, section 3).
const DECONFIGURED: u8 = 3;

const CHANGED: u8 = 6;

/// Plans what a reload does to a slot, by its section in the new file. The slot stands for what it stood for, also
/// where memory is wanting.
pub fn plan(
    alloc: Global,
    hasher: RandomState,
    peering: &mut Peering,
    section: Option<&Neighbor>,
) -> Result<Change, NoMemory>
    requires { IfSome (option_copied section) IsSection }
    ensures planned { IfOk result (λ change.
        IsPlanned peering.new (option_copied section.entry) change) }
    ensures moves { Moves [] peering.old peering.new }
{
    match section {
        Some(new) => plan_section(alloc, hasher, peering, new),
        None => leave(alloc, hasher, peering),
    }
}

// The slot has no section in the new file.
fn leave(alloc: Global, hasher: RandomState, peering: &Peering) -> Result<Change, NoMemory>
    ensures { IfOk result (λ change. IsPlanned peering.now None change) }
{
    let Some(own) = peering.slot.settings() else {
        return Ok(Change::Nothing);
    };
    let with = PeerSlot::vacant(empty_table(alloc, own.side(), hasher));
    Ok(Change::Exchange {
        end: Some(Code::new(CEASE, DECONFIGURED)),
        with,
        names: Items::new(alloc),
    })
}

// The slot has this section in the new file.
fn plan_section(
    alloc: Global,
    hasher: RandomState,
    peering: &mut Peering,
    new: &Neighbor,
) -> Result<Change, NoMemory>
    requires { IsSection new.now }
    ensures planned { IfOk result (λ change. IsPlanned peering.new (Some new.now) change) }
    ensures moves { Moves [] peering.old peering.new }
{
    let Some(own) = peering.slot.settings() else {
        return place(alloc, hasher, None, new);
    };
    if !is_addr(own.peer, new.settings.peer) {
        return place(alloc, hasher, Some(Code::new(CEASE, DECONFIGURED)), new);
    }
    if is_same(&own, &new.settings) {
        return stay(alloc, peering, new);
    }
    change(alloc, hasher, peering, &own, new)
}

// Another neighbour comes, behind the end of a session where one is in the slot.
fn place(
    alloc: Global,
    hasher: RandomState,
    end: Option<Code>,
    new: &Neighbor,
) -> Result<Change, NoMemory>
    requires { IsSection new.now }
    ensures { IfOk result (PlansPlaced end new.now) }
{
    let names = copy_names(alloc, new.processes.as_slice())?;
    let table = empty_table(alloc, new.settings.side(), hasher);
    let with = PeerSlot::placed(table, new.settings, new.statics.as_slice())?;
    Ok(Change::Exchange { end, with, names })
}

// The neighbour stays with the same settings.
fn stay(alloc: Global, peering: &mut Peering, new: &Neighbor) -> Result<Change, NoMemory>
    requires { IsHeld peering.old new.now true }
    ensures planned { IfOk result (λ change. IsPlanned peering.new (Some new.now) change) }
    ensures moves { Moves [] peering.old peering.new }
{
    let names = copy_names(alloc, new.processes.as_slice())?;
    let numbers = peering.slot.prepare_statics(alloc, new.statics.as_slice())?;
    Ok(Change::Keep { numbers, names })
}

// The neighbour stays with other settings: its routes are to be sent otherwise. Where the own address had another
// family than the neighbour's, which no configuration has, there is no such table.
fn change(
    alloc: Global,
    hasher: RandomState,
    peering: &Peering,
    own: &Settings,
    new: &Neighbor,
) -> Result<Change, NoMemory>
    requires section { IsSection new.now }
    requires placed { peering.now.slot.settings ≡ Some own.now }
    requires held { IsHeld peering.now new.now false }
    ensures { IfOk result (λ change. IsPlanned peering.now (Some new.now) change) }
{
    if !are_alike(own.local, new.settings.local) {
        return Err(NoMemory);
    }
    let names = copy_names(alloc, new.processes.as_slice())?;
    let table = empty_table(alloc, new.settings.side(), hasher);
    let statics = new.statics.as_slice();
    let with = peering.slot.moved(alloc, table, new.settings, statics)?;
    Ok(Change::Exchange {
        end: Some(Code::new(CEASE, CHANGED)),
        with,
        names,
    })
}

/// Whether two addresses are the same.
pub fn is_addr(a: Addr, b: Addr) -> bool
    ensures { result ≡ same_addr a b }
{
    a == b
}

// Whether two addresses have one family.
fn are_alike(a: Addr, b: Addr) -> bool
    ensures { IsTrue result ↔ (family_of a ≡ family_of b) }
{
    a.family() == b.family()
}

// Whether two settings are the same.
fn is_same(own: &Settings, new: &Settings) -> bool
    ensures { result ≡ same_settings own.now new.now }
{
    *own == *new
}
