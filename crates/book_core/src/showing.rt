//! Routes that a helper asks to see: counted, and then listed and told, or none of them.
ghost use Rattle.std.specs.Prelude.{◌≡◌, ◌<◌, true, length, IfOk, IfSome};
ghost use Rattle.config_model.specs.Limits.{max_helpers, max_peers};
ghost use Rattle.book_core.specs.Choosing.{is_show};
ghost use Rattle.book_core.specs.Lines.{HasRoom, Does};
ghost use Rattle.book_core.specs.Showing.{AreCounted, AreListed, Tells};

mod listing;
mod within;

use crate::book::Book;
use crate::carrying::is_at;
use crate::counting::sum;
use crate::peering::Peering;
use ack_queue::Shown;
use book_history::{Verdict, Why};
use command_grammar::Command;
use config_model::MAX_PEERS;
use listing::{count_at, list_at};
use peer_history::nodes_stay;
use route_values::{NoMemory, Prefix};
use std::alloc::Global;

// The most routes that one line shows.
const MAX_SHOWN: u64 = 1_023;

impl Book {
    // Tells a helper the routes of the chosen slots.
    pub(crate) fn show(&mut self, h: usize, command: &Command, chosen: &[bool]) -> Verdict
        requires slot { h < max_helpers }
        requires many { length chosen.now ≡ max_peers }
        requires room { HasRoom h self.old }
        requires shows { is_show command.now ≡ true }
        ensures { Does h command.now chosen.now result self.old self.new }
    {
        // For the proof: a show adds no route node.
        nodes_stay();
        let Command::Show { within, .. } = command else {
            unreachable!()
        };
        let Some(count) = count_all(&self.peers, chosen, within) else {
            return self.refuse(h, Why::NoMemory);
        };
        if count > MAX_SHOWN {
            return self.refuse(h, Why::Show(count));
        }
        let Ok(routes) = list_all(self.alloc, &self.peers, chosen, within) else {
            return self.refuse(h, Why::NoMemory);
        };
        self.tell(h, command, &routes)
    }

    // Tells a helper the routes that its line asks for, where all its replies fit.
    fn tell(&mut self, h: usize, command: &Command, routes: &[Shown]) -> Verdict
        requires slot { h < max_helpers }
        requires room { HasRoom h self.old }
        requires shows { is_show command.now ≡ true }
        ensures { Tells h command.now routes.now result self.old self.new }
    {
        let helper = &self.helpers[h];
        if !helper.has_room(command, routes) {
            return Verdict::Busy;
        }
        let helper = &mut self.helpers[h];
        helper.accept(command, routes);
        Verdict::Done
    }
}

// How many routes of the chosen slots are to be shown. None where that is no number of 64 bits.
fn count_all(peers: &[Peering], chosen: &[bool], within: &Option<Prefix>) -> Option<u64>
    requires slots { length peers.now ≡ max_peers }
    requires many { length chosen.now ≡ max_peers }
    ensures { IfSome result (AreCounted peers.now chosen.now within.now) }
{
    let mut count = 0;
    'peers: for n in 0..MAX_PEERS {
        let own = count_at(&peers[n].slot, is_at(chosen, n), within) as u64;
        count = sum(count, own)?;
    }
    Some(count)
}

// The routes of the chosen slots that are to be shown: slot by slot, and in each in the order of keys.
fn list_all(
    alloc: Global,
    peers: &[Peering],
    chosen: &[bool],
    within: &Option<Prefix>,
) -> Result<Vec<Shown>, NoMemory>
    requires slots { length peers.now ≡ max_peers }
    requires many { length chosen.now ≡ max_peers }
    ensures { IfOk result (λ routes. AreListed peers.now chosen.now within.now routes.items) }
{
    let mut routes = Vec::new(alloc);
    'peers: for n in 0..MAX_PEERS {
        list_at(alloc, &peers[n].slot, is_at(chosen, n), within, &mut routes)?;
    }
    Ok(routes)
}
