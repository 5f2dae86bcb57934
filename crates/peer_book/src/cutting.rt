//! Cuts the next message of a table.
ghost use Rattle.std.specs.Prelude.{◌≡◌, ◌≤◌, [], Some, MatchOption};
ghost use Rattle.std.specs.Option.{option_map};
ghost use Rattle.update_grammar.specs.Packed.{room};
ghost use Rattle.adj_rib_out.specs.Calls.{is_open};
ghost use Rattle.peer_book.specs.Cutting.{MakesReady, CutsNothing, CutsMessage};
ghost use Rattle.peer_book.specs.Slot.{IsSound};

use adj_rib_out::{Due, Rib};
use attr_codec::Message;
use batch_cutter::fill;
use route_values::Caps;

/// Makes the next message of a session in an empty buffer, and answers whether it is the last of its batch; None where
/// nothing is owed. It takes no memory.
pub fn cut_next(table: &mut Rib, caps: Caps, out: &mut Message) -> Option<bool>
    requires sound { IsSound table.old }
    requires session { option_map (λ session. session.caps) table.old.session ≡ Some caps }
    requires empty { out.old.bytes ≡ [] }
    requires room { room caps ≤ out.old.room }
    ensures cuts { MatchOption result (CutsNothing table.old table.new)
        (λ last. CutsMessage caps table.old table.new out.new.bytes last) }
    ensures sound { IsSound table.new }
    ensures session { option_map (λ session. session.caps) table.new.session ≡ Some caps }
    ensures room { out.new.room ≡ out.old.room }
{
    make_ready(table);
    if !fill(table, caps, out) {
        return None;
    }
    Some(!is_open(table))
}

// Begins a batch where none is open and something is owed.
fn make_ready(table: &mut Rib)
    requires sound { IsSound table.old }
    ensures ready { MakesReady table.old table.new }
    ensures sound { IsSound table.new }
    ensures session { option_map (λ session. session.caps) table.new.session
        ≡ option_map (λ session. session.caps) table.old.session }
{
    if !is_open(table) {
        table.freeze();
    }
}

// Whether something is left of a batch.
fn is_open(table: &Rib) -> bool
    ensures { result ≡ is_open table.now }
{
    match table.due() {
        Due::Empty => false,
        Due::Gone(_) => true,
        Due::Here(..) => true,
        Due::End(_) => true,
    }
}
