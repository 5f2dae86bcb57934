//! What a reload does to one neighbour slot, once all that takes memory was done.
ghost use Rattle.std.specs.Option.{option_copied};
ghost use Rattle.std.specs.Prelude.{◌++◌, List, IfSome};
ghost use Rattle.peer_book.specs.Stands as of_peer;
ghost use Rattle.peer_history.specs.Steps.{Step};
ghost use Rattle.book_core.specs.Changing.{ends, IsPlanned, IsSection, Settles};
ghost use Rattle.book_core.specs.Changing.{PlansExchange, PlansKept};

use crate::peering::Peering;
use config_model::{Names, Neighbor};
use peer_book::{Code, Numbers, PeerSlot};

/// What a reload does to a neighbour slot.
#[derive(Drop)]
pub enum Change {
    /// No neighbour is in the slot, and none comes.
    Nothing,
    /// The neighbour stays with its settings. The static routes of its section stand ready under these numbers.
    Keep {
        numbers: Numbers,
        names: Names,
    },
    /// The slot gets the neighbour and the table of another one, or none. The session of a neighbour that is in the
    /// slot ends with this code.
    Exchange {
        end: Option<Code>,
        with: PeerSlot,
        names: Names,
    },
}

/// Does to a slot what was planned for it, by its section in the new file. It takes no memory.
pub fn carry(peering: &mut Peering, change: Change, section: Option<&Neighbor>)
    requires planned { IsPlanned peering.old (option_copied section) change }
    requires section { IfSome (option_copied section) IsSection }
    ensures { Settles (option_copied section.entry) peering.old peering.new }
{
    match change {
        Change::Nothing => {}
        Change::Keep { numbers, names } => keep(peering, section, &numbers, names),
        Change::Exchange { end, with, names } => { exchange(peering, section, end, with, names) }
    }
}

// The neighbour stays, with a new section of the same settings.
fn keep(peering: &mut Peering, section: Option<&Neighbor>, numbers: &Numbers, names: Names)
    requires planned { PlansKept peering.old.slot (option_copied section) numbers.now names }
    requires section { IfSome (option_copied section) IsSection }
    ensures { Settles (option_copied section.entry) peering.old peering.new }
{
    let Some(new) = section else { unreachable!() };
    let statics = new.statics.as_slice();
    peering.slot.keep(new.settings, statics, numbers);
    peering.names = names;
}

// The slot gets the neighbour and the table of another.
fn exchange(
    peering: &mut Peering,
    section: Option<&Neighbor>,
    end: Option<Code>,
    with: PeerSlot,
    names: Names,
)
    requires { PlansExchange peering.old.slot (option_copied section) end with names }
    ensures { Settles (option_copied section.entry) peering.old peering.new }
{
    end_by(&mut peering.slot, end);
    peering.slot.exchange(with);
    peering.names = names;
}

// Ends a slot's session by a code, if there is one.
fn end_by(slot: &mut PeerSlot, end: Option<Code>)
    ensures { (steps : List Step) → of_peer.Stands steps slot.old
        → of_peer.Stands (ends end ++ steps) slot.new }
{
    match end {
        Some(code) => slot.end(code),
        None => {}
    }
}
