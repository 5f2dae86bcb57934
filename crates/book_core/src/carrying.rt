//! What commands that announce nothing are to the slots that they are for. No memory is taken.
ghost use Rattle.std.specs.Prelude.{◌≡◌, ◌<◌, ◌+◌, ◌++◌, ◌||◌, ℕ, List, true, false, length};
ghost use Rattle.config_model.specs.Limits.{max_helpers, max_peers};
ghost use Rattle.peer_book.specs.Stands.{Stands};
ghost use Rattle.peer_history.specs.Steps.{Step};
ghost use Rattle.book_history.specs.PeerSteps.{commanded};
ghost use Rattle.book_core.specs.declared.peering.Peering.{Peering as Place};
ghost use Rattle.book_core.specs.Carrying.{carried, is_among};
ghost use Rattle.book_core.specs.Choosing.{is_announce, is_reload, is_show, is_shutdown};
ghost use Rattle.book_core.specs.Lines.{HasRoom, Does};
ghost use Rattle.book_core.specs.Moves.{MovesAll, MovesBelow};

use crate::book::Book;
use crate::ending::{CEASE, SHUT_DOWN};
use crate::peering::Peering;
use book_history::Verdict;
use command_grammar::Command;
use config_model::MAX_PEERS;
use peer_book::{Code, PeerSlot};
use peer_history::nodes_stay;

impl Book {
    // Does a command that announces nothing and shows nothing, and tells its helper so.
    pub(crate) fn carry(&mut self, h: usize, command: &Command, chosen: &[bool]) -> Verdict
        requires slot { h < max_helpers }
        requires many { length chosen.now ≡ max_peers }
        requires room { HasRoom h self.old }
        requires plain { is_announce command.now ≡ false }
        requires silent { is_show command.now ≡ false }
        ensures { Does h command.now chosen.now result self.old self.new }
    {
        // For the proof: such a command adds no node.
        nodes_stay();
        carry_all(&mut self.peers, chosen, command);
        let stopping = self.stopping;
        self.stopping = ends(command, stopping);
        let due = self.reload_due;
        self.reload_due = is_due(command, due);
        let helper = &mut self.helpers[h];
        helper.accept(command, &[]);
        Verdict::Done
    }
}

// Whether the daemon ends behind a command, by whether it did.
fn ends(command: &Command, stopping: bool) -> bool
    ensures { result ≡ (is_shutdown command.now || stopping) }
{
    match command {
        Command::Shutdown => true,
        _ => stopping,
    }
}

// Whether a reload is due behind a command, by whether it was.
fn is_due(command: &Command, due: bool) -> bool
    ensures { result ≡ (is_reload command.now || due) }
{
    match command {
        Command::Reload => true,
        _ => due,
    }
}

// Does what a command that announces nothing is to each slot.
fn carry_all(peers: &mut Vec<Peering>, chosen: &[bool], command: &Command)
    requires slots { length peers.old.items ≡ max_peers }
    requires many { length chosen.now ≡ max_peers }
    requires plain { is_announce command.now ≡ false }
    ensures { MovesAll (carried chosen.now command.now) peers.old.items peers.new.items }
{
    'peers: for n in 0..MAX_PEERS {
        carry_at(peers, n, is_at(chosen, n), command);
    }
}

/// Whether a slot is chosen.
pub fn is_at(chosen: &[bool], n: usize) -> bool
    requires { n < length chosen.now }
    ensures { result ≡ is_among chosen.now n }
{
    chosen[n]
}

// Does what it is to one slot, behind those below it.
fn carry_at(peers: &mut Vec<Peering>, n: usize, so: bool, command: &Command)
    requires place { n < length peers.old.items }
    requires plain { is_announce command.now ≡ false }
    ensures { (start : List Place) (steps : ℕ → List Step) → steps n ≡ commanded command.now so
        → MovesBelow n steps start peers.old.items
        → MovesBelow (n + 1) steps start peers.new.items }
{
    let peering = &mut peers[n];
    carry_one(&mut peering.slot, so, command);
}

// Does what it is to a slot, which is chosen or isn't.
fn carry_one(slot: &mut PeerSlot, so: bool, command: &Command)
    requires { is_announce command.now ≡ false }
    ensures { (steps : List Step) → Stands steps slot.old
        → Stands (commanded command.now so ++ steps) slot.new }
{
    if let Command::Shutdown = command {
        slot.end(Code::new(CEASE, SHUT_DOWN));
        return;
    }
    if !so {
        return;
    }
    carry_chosen(slot, command);
}

// Does what it is to a chosen slot. A shutdown is for all slots, and none of them is chosen for it.
fn carry_chosen(slot: &mut PeerSlot, command: &Command)
    requires plain { is_announce command.now ≡ false }
    requires on { is_shutdown command.now ≡ false }
    ensures { (steps : List Step) → Stands steps slot.old
        → Stands (commanded command.now true ++ steps) slot.new }
{
    match command {
        Command::Withdraw { keys, .. } => slot.withdraw(keys.as_slice()),
        Command::Clear(_) => slot.clear(),
        Command::Flush(_) => slot.flush(),
        Command::Teardown(_, sub) => slot.end(Code::new(CEASE, *sub)),
        Command::Announce { .. } | Command::Show { .. } => {}
        Command::Reload | Command::Shutdown => {}
        Command::DisableAck | Command::EnableAck | Command::Comment => {}
    }
}
