//! Trimming: what stands ready in a table and isn't needed goes.
ghost use Rattle.std.specs.Prelude.{◌<◌, ◌+◌, List, length};
ghost use Rattle.book_core.specs.declared.peering.Peering.{Peering as Place};
ghost use Rattle.book_core.specs.Moves.{MovesAll, MovesBelow, nothing};

use crate::peering::Peering;

/// Takes out of all tables what stands ready and isn't needed.
pub fn trim_all(peers: &mut Vec<Peering>)
    ensures { MovesAll nothing peers.old.items peers.new.items }
{
    let count = peers.len();
    'peers: for n in 0..count {
        trim_at(peers, n);
    }
}

// Takes it out of the table of one slot, behind those of the slots below it.
fn trim_at(peers: &mut Vec<Peering>, n: usize)
    requires { n < length peers.old.items }
    ensures { (start : List Place) → MovesBelow n nothing start peers.old.items
        → MovesBelow (n + 1) nothing start peers.new.items }
{
    let peering = &mut peers[n];
    peering.slot.trim();
}
