//! Announcements: counted, stood ready in all slots that they are for, and then made there, or in none.
ghost use Rattle.std.specs.Prelude.{◌≡◌, ◌<◌, ◌+◌, ◌++◌, ℕ, Bool, true, List, [], ◌∷◌};
ghost use Rattle.std.specs.Prelude.{get_or, length, slice_get, slice_set};
ghost use Rattle.std.specs.Prelude.{IfOk, IfSome, OnErr, OnOk, Some};
ghost use Rattle.route_values.specs.declared.attrs.Attrs.{Attrs as Written};
ghost use Rattle.config_model.specs.Limits.{max_helpers, max_peers};
ghost use Rattle.peer_book.specs.Stands.{Stands};
ghost use Rattle.peer_history.specs.Cuts.{IsLegal};
ghost use Rattle.peer_history.specs.Steps.{Step};
ghost use Rattle.peer_history.specs.Steps.Step.{Announced};
ghost use Rattle.book_history.specs.PeerSteps.{step_if};
ghost use Rattle.book_core.specs.declared.peering.Peering.{Peering as Place};
ghost use Rattle.book_core.specs.Announcing.{AllLegal, AllServe, AllTake, AreReadied};
ghost use Rattle.book_core.specs.Announcing.{IsReadied, Takes};
ghost use Rattle.book_core.specs.Announcing.{announces, nodes_after, nodes_below};
ghost use Rattle.book_core.specs.Carrying.{is_among};
ghost use Rattle.book_core.specs.Choosing.{is_announce};
ghost use Rattle.book_core.specs.Lines.{HasRoom, IsSaid, Does};
ghost use Rattle.book_core.specs.Moves.{MovesAll, MovesBelow, nothing};

use crate::book::Book;
use crate::carrying::is_at;
use crate::counting::{MAX_NODES, sum};
use crate::peering::Peering;
use crate::trimming::trim_all;
use book_history::{Verdict, Why};
use command_grammar::Command;
use config_model::MAX_PEERS;
use peer_book::{PeerSlot, known_route};
use route_values::{Attrs, Key, NoMemory};

// The number of a value in each slot; 0 in slots that the announcement isn't for.
type Numbers = [usize; MAX_PEERS];

impl Book {
    // Announces routes in all chosen slots, or in none.
    pub(crate) fn announce(&mut self, h: usize, command: &Command, chosen: &[bool]) -> Verdict
        requires slot { h < max_helpers }
        requires many { length chosen.now ≡ max_peers }
        requires room { HasRoom h self.old }
        requires announces { is_announce command.now ≡ true }
        requires said { IsSaid command.now }
        requires serve { AllServe command.now chosen.now self.old.peers }
        ensures { Does h command.now chosen.now result self.old self.new }
    {
        let Command::Announce { keys, attrs, .. } = command else {
            unreachable!()
        };
        let keys = keys.as_slice();
        let Some(nodes) = nodes_with(&self.peers, chosen, keys) else {
            return self.refuse(h, Why::NoMemory);
        };
        if nodes > MAX_NODES {
            return self.refuse(h, Why::Full(nodes));
        }
        if announce_slots(&mut self.peers, chosen, keys, attrs).is_err() {
            return self.refuse(h, Why::NoMemory);
        }
        let helper = &mut self.helpers[h];
        helper.accept(command, &[]);
        Verdict::Done
    }
}

// How many route nodes all slots would have with these keys in the chosen ones. None where that is no number of 64
// bits.
fn nodes_with(peers: &[Peering], chosen: &[bool], keys: &[Key]) -> Option<u64>
    requires slots { length peers.now ≡ max_peers }
    requires many { length chosen.now ≡ max_peers }
    ensures { IfSome result (λ nodes. (steps : ℕ → List Step) (written : Written)
        → AllLegal steps peers.now
        → nodes ≡ nodes_below max_peers (announces chosen.now keys.now written) steps) }
{
    let mut nodes = 0;
    'peers: for n in 0..MAX_PEERS {
        let own = nodes_at(&peers[n].slot, is_at(chosen, n), keys)?;
        nodes = sum(nodes, own)?;
    }
    Some(nodes)
}

// How many one slot would have.
fn nodes_at(slot: &PeerSlot, so: bool, keys: &[Key]) -> Option<u64>
    ensures { IfSome result (λ nodes. (steps : List Step) (written : Written) → IsLegal steps
        → Stands steps slot.now
        → nodes ≡ nodes_after (step_if so (Announced keys.now written ∷ [])) steps) }
{
    let own = slot.nodes() as u64;
    if !so {
        return Some(own);
    }
    sum(own, slot.adds(keys) as u64)
}

// Announces routes in the chosen slots; where memory is wanting, in none.
fn announce_slots(
    peers: &mut Vec<Peering>,
    chosen: &[bool],
    keys: &[Key],
    written: &Attrs,
) -> Result<(), NoMemory>
    requires slots { length peers.old.items ≡ max_peers }
    requires many { length chosen.now ≡ max_peers }
    requires take { AllTake peers.old.items chosen.now keys.now written.now }
    ensures ok { OnOk result
        (MovesAll (announces chosen.now keys.now written.now) peers.old.items peers.new.items) }
    ensures err { OnErr result (MovesAll nothing peers.old.items peers.new.items) }
{
    let Ok(numbers) = prepare_all(peers, chosen, keys, written) else {
        trim_all(peers);
        return Err(NoMemory);
    };
    announce_all(peers, chosen, keys, &numbers);
    Ok(())
}

// Stands keys and a value ready in the chosen slots, and answers the value's numbers there. Where memory is wanting,
// some of it stands ready.
fn prepare_all(
    peers: &mut Vec<Peering>,
    chosen: &[bool],
    keys: &[Key],
    written: &Attrs,
) -> Result<Numbers, NoMemory>
    requires slots { length peers.old.items ≡ max_peers }
    requires many { length chosen.now ≡ max_peers }
    requires take { AllTake peers.old.items chosen.now keys.now written.now }
    ensures moved { MovesAll nothing peers.old.items peers.new.items }
    ensures readied { IfOk result
        (λ numbers. AreReadied max_peers peers.new.items chosen.now keys.now written.now numbers) }
{
    let mut numbers = [0; MAX_PEERS];
    'peers: for n in 0..MAX_PEERS {
        numbers[n] = prepare_at(peers, n, is_at(chosen, n), keys, written)?;
    }
    Ok(numbers)
}

// Does so in one slot, behind those below it.
fn prepare_at(
    peers: &mut Vec<Peering>,
    n: usize,
    so: bool,
    keys: &[Key],
    written: &Attrs,
) -> Result<usize, NoMemory>
    requires place { n < length peers.old.items }
    requires can { (is : Place) → slice_get peers.old.items n ≡ Some is → so ≡ true
        → Takes is.slot keys.now written.now }
    ensures moved { (start : List Place) → MovesBelow n nothing start peers.old.items
        → MovesBelow (n + 1) nothing start peers.new.items }
    ensures readied { IfOk result (λ number. (chosen : List Bool) (numbers : List ℕ)
        → so ≡ is_among chosen n → n < length numbers
        → AreReadied n peers.old.items chosen keys.now written.now numbers
        → AreReadied (n + 1) peers.new.items chosen keys.now written.now
        (slice_set numbers n number)) }
{
    let peering = &mut peers[n];
    prepare(&mut peering.slot, so, keys, written)
}

// Does so in a slot, which is chosen or isn't.
fn prepare(slot: &mut PeerSlot, so: bool, keys: &[Key], written: &Attrs) -> Result<usize, NoMemory>
    requires { so ≡ true → Takes slot.old keys.now written.now }
    ensures stands { (steps : List Step) → Stands steps slot.old → Stands steps slot.new }
    ensures readied { IfOk result
        (λ number. so ≡ true → IsReadied slot.new keys.now written.now number) }
{
    if !so {
        return Ok(0);
    }
    prepare_chosen(slot, keys, written)
}

// Does so in a chosen slot.
fn prepare_chosen(slot: &mut PeerSlot, keys: &[Key], written: &Attrs) -> Result<usize, NoMemory>
    requires { Takes slot.old keys.now written.now }
    ensures stands { (steps : List Step) → Stands steps slot.old → Stands steps slot.new }
    ensures readied { IfOk result (λ number. IsReadied slot.new keys.now written.now number) }
{
    let Some(settings) = slot.settings() else {
        unreachable!()
    };
    // For the proof: what is sent of attributes within the limits is a route.
    known_route(&settings.side(), written);
    slot.prepare(keys, written)
}

// Announces routes of the keys with the values of these numbers in the chosen slots. It takes no memory.
fn announce_all(peers: &mut Vec<Peering>, chosen: &[bool], keys: &[Key], numbers: &Numbers)
    requires slots { length peers.old.items ≡ max_peers }
    requires many { length chosen.now ≡ max_peers }
    requires readied { (written : Written)
        × AreReadied max_peers peers.old.items chosen.now keys.now written numbers.now }
    ensures { (written : Written)
        → AreReadied max_peers peers.old.items chosen.now keys.now written numbers.now
        → MovesAll (announces chosen.now keys.now written) peers.old.items peers.new.items }
{
    'peers: for n in 0..MAX_PEERS {
        announce_at(peers, n, is_at(chosen, n), keys, number_at(numbers, n));
    }
}

// The number of the value in a slot.
fn number_at(numbers: &Numbers, n: usize) -> usize
    requires { n < max_peers }
    ensures { result ≡ get_or numbers.now n 0 }
{
    numbers[n]
}

// Announces them in one slot, behind those below it.
fn announce_at(peers: &mut Vec<Peering>, n: usize, so: bool, keys: &[Key], number: usize)
    requires place { n < length peers.old.items }
    requires readied { (is : Place) → slice_get peers.old.items n ≡ Some is → so ≡ true
        → (written : Written) × IsReadied is.slot keys.now written number }
    ensures { (start : List Place) (steps : ℕ → List Step) (written : Written)
        → steps n ≡ step_if so (Announced keys.now written ∷ [])
        → ((is : Place) → slice_get peers.old.items n ≡ Some is → so ≡ true
        → IsReadied is.slot keys.now written number)
        → MovesBelow n steps start peers.old.items
        → MovesBelow (n + 1) steps start peers.new.items }
{
    let peering = &mut peers[n];
    announce_one(&mut peering.slot, so, keys, number);
}

// Announces them in a slot, which is chosen or isn't, and takes out of its table what nothing needs any more.
fn announce_one(slot: &mut PeerSlot, so: bool, keys: &[Key], number: usize)
    requires { so ≡ true → (written : Written) × IsReadied slot.old keys.now written number }
    ensures { (written : Written) (steps : List Step)
        → (so ≡ true → IsReadied slot.old keys.now written number) → Stands steps slot.old
        → Stands (step_if so (Announced keys.now written ∷ []) ++ steps) slot.new }
{
    if !so {
        return;
    }
    slot.announce(keys, number);
    slot.trim();
}
