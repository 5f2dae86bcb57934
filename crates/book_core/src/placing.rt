//! Into which slots the sections of a new file go, by numbers.
ghost use Rattle.std.specs.List.{list_any};
ghost use Rattle.std.specs.Option.{option_copied, option_map};
ghost use Rattle.std.specs.Prelude.{◌≡◌, ◌<◌, ◌≤◌, ℕ, length, slice_get, true, Some};
ghost use Rattle.config_model.specs.Limits.{max_peers};
ghost use Rattle.book_core.specs.declared.peering.Peering.{Peering as Place};
ghost use Rattle.book_core.specs.Placing.{left_behind, marked_from, number_placed, vacant_below};
ghost use Rattle.book_core.specs.Settling.{is_new, is_of, number_kept, section_in, ArePlaces};

use crate::peering::Peering;
use crate::planning::is_addr;
use config_model::{MAX_PEERS, Neighbor, place_of_neighbor};
use route_values::Settings;

/// Which sections of a new file stay in the neighbour slots, and which are new.
#[derive(Drop)]
pub struct Places {
    /// The number of the section of the neighbour that is in the slot of this place, where the file has one.
    pub kept: [Option<usize>; MAX_PEERS],
    /// Whether the section of this number is that of a neighbour in no slot.
    pub news: [bool; MAX_PEERS],
}

/// The places of the sections of a new file, by the neighbours in the slots. It takes no memory.
pub fn find_places(peers: &[Peering], sections: &[Neighbor]) -> Places
    requires { length peers.now ≡ max_peers }
    ensures { ArePlaces sections.now peers.now result }
{
    Places {
        kept: kept_numbers(peers, sections),
        news: new_numbers(peers, sections),
    }
}

// The number of the section of each slot's neighbour.
fn kept_numbers(peers: &[Peering], sections: &[Neighbor]) -> [Option<usize>; MAX_PEERS]
    requires { length peers.now ≡ max_peers }
    ensures count { length result ≡ max_peers }
    ensures each { (n : ℕ) → n < max_peers → slice_get result n
        ≡ option_map (λ (is : Place). number_kept sections.now is.slot.settings)
        (slice_get peers.now n) }
{
    let mut kept = [None; MAX_PEERS];
    'peers: for n in 0..MAX_PEERS {
        kept[n] = number_kept(sections, peers[n].slot.settings());
    }
    kept
}

// The number of the section of the neighbour with these settings.
fn number_kept(sections: &[Neighbor], settings: Option<Settings>) -> Option<usize>
    ensures { result ≡ number_kept sections.now settings }
{
    match settings {
        Some(own) => place_of_neighbor(sections, own.peer),
        None => None,
    }
}

// Which sections are those of neighbours in no slot.
fn new_numbers(peers: &[Peering], sections: &[Neighbor]) -> [bool; MAX_PEERS]
    ensures count { length result ≡ max_peers }
    ensures each { (n : ℕ) → n < max_peers
        → slice_get result n ≡ Some (is_new peers.now (slice_get sections.now n)) }
{
    let mut news = [false; MAX_PEERS];
    'sections: for n in 0..MAX_PEERS {
        news[n] = is_new(peers, sections.get(n));
    }
    news
}

// Whether there is a section, and its neighbour is in no slot.
fn is_new(peers: &[Peering], section: Option<&Neighbor>) -> bool
    ensures { result ≡ is_new peers.now (option_copied section.entry) }
{
    match section {
        Some(new) => !is_there(peers, new),
        None => false,
    }
}

// Whether a section's neighbour is in a slot.
fn is_there(peers: &[Peering], new: &Neighbor) -> bool
    ensures { result
        ≡ list_any (λ (peering : Place). is_of new.now peering.slot.settings) peers.now }
{
    'peers: for peering in peers {
        if is_of(new, peering.slot.settings()) {
            return true;
        }
    }
    false
}

// Whether the neighbour with these settings is that of a section.
fn is_of(new: &Neighbor, settings: Option<Settings>) -> bool
    ensures { result ≡ is_of new.now settings }
{
    match settings {
        Some(own) => is_addr(own.peer, new.settings.peer),
        None => false,
    }
}

/// The section that a slot has behind a reload, if it has one. It takes no memory.
pub fn section_in<'a>(sections: &'a [Neighbor], places: &Places, n: usize) -> Option<&'a Neighbor>
    requires { n < length places.now.kept }
    ensures { option_copied result ≡ section_in sections.now places.now n }
{
    match number_placed(&places.kept, &places.news, n) {
        Some(number) => sections.get(number),
        None => None,
    }
}

/// The number of the section that a slot has behind a reload, by the numbers of those that stay in their slots, and by
/// which sections are new. New ones go into the lowest vacant slots, in order. It takes no memory.
pub fn number_placed(kept: &[Option<usize>], news: &[bool], n: usize) -> Option<usize>
    requires { n < length kept.now }
    ensures { result ≡ number_placed kept.now news.now n }
{
    if kept[n].is_some() {
        return kept[n];
    }
    nth_marked(news, vacant_below(kept, n))
}

// How many slots below a place are vacant.
fn vacant_below(kept: &[Option<usize>], place: usize) -> usize
    requires { place ≤ length kept.now }
    ensures count { result ≡ vacant_below kept.now place }
{
    let mut count = 0;
    'slots: for n in 0..place {
        if kept[n].is_none() {
            count += 1;
        }
    }
    count
}

// The number of a marked one, by how many marked ones stand before it.
fn nth_marked(marks: &[bool], before: usize) -> Option<usize>
    ensures { result ≡ slice_get (marked_from 0 marks.now) before }
{
    let mut left = before;
    'marks: for number in 0..marks.len() {
        let mark = marks[number];
        if mark && left == 0 {
            return Some(number);
        }
        left = left_behind(mark, left);
    }
    None
}

// How many marked ones are to be passed behind one that is marked or not.
fn left_behind(mark: bool, left: usize) -> usize
    requires { mark ≡ true → 0 < left }
    ensures { result ≡ left_behind mark left }
{
    if mark {
        return left - 1;
    }
    left
}
