//! A reload of all helper slots.
ghost use Rattle.std.specs.List.{list_any};
ghost use Rattle.std.specs.Option.{option_copied};
ghost use Rattle.std.specs.Prelude.{◌≡◌, ◌<◌, ◌+◌, ℕ, List, Some, length, slice_get};
ghost use Rattle.std.specs.Prelude.{Option as Maybe};
ghost use Rattle.config_model.specs.declared.sections.Process.{Process as Section};
ghost use Rattle.config_model.specs.Limits.{max_helpers};
ghost use Rattle.config_model.specs.Sections.{Sections};
ghost use Rattle.helper_book.specs.Seen.{Seen as Helping};
ghost use Rattle.book_history.specs.Entries.{History};
ghost use Rattle.book_core.specs.Processes.{is_new_process, is_process_of};
ghost use Rattle.book_core.specs.Processes.{number_of_process, process_in};
ghost use Rattle.book_core.specs.Processes.{AreProcessPlaces, ReloadsHelpers, ReloadsTo};
ghost use Rattle.book_core.specs.Stands.{HelpersStand};

use crate::placing::number_placed;
use config_model::{MAX_HELPERS, Process, place_of_process};
use helper_book::Helper;

// Which sections of a new file stay in the helper slots, and which are new.
#[derive(Drop)]
struct ProcessPlaces {
    // The number of the section of the process that is in the slot of this place, where the file has one.
    kept: [Option<usize>; MAX_HELPERS],
    // Whether the section of this number is that of a process in no slot.
    news: [bool; MAX_HELPERS],
}

/// Gives each helper slot the process that it has behind a reload that is done. It takes no memory.
pub fn reload_helpers(helpers: &mut Vec<Helper>, processes: &[Process])
    requires { length helpers.old.items ≡ max_helpers }
    ensures count { length helpers.new.items ≡ length helpers.old.items }
    ensures reloads { (cfg : Sections) (H : History) → HelpersStand cfg H helpers.old.items
        → ReloadsHelpers processes.now helpers.old.items helpers.new.items }
{
    let places = find_places(helpers.as_slice(), processes);
    'helpers: for h in 0..MAX_HELPERS {
        let process = process_in(processes, &places, h);
        reload_at(helpers, h, process);
    }
}

// The places of the sections of a new file, by the processes in the slots.
fn find_places(helpers: &[Helper], processes: &[Process]) -> ProcessPlaces
    requires { length helpers.now ≡ max_helpers }
    ensures { (cfg : Sections) (H : History) → HelpersStand cfg H helpers.now
        → AreProcessPlaces processes.now helpers.now result }
{
    ProcessPlaces {
        kept: kept_numbers(helpers, processes),
        news: new_numbers(helpers, processes),
    }
}

// Gives one slot its process, behind those of the slots below it.
fn reload_at(helpers: &mut Vec<Helper>, h: usize, process: Option<Process>)
    requires { h < length helpers.old.items }
    ensures { (start : List Helping) (after : ℕ → Maybe Section) → after h ≡ process
        → ReloadsTo h after start helpers.old.items
        → ReloadsTo (h + 1) after start helpers.new.items }
{
    let helper = &mut helpers[h];
    helper.reload(process);
}

// The process that a slot has behind a reload, if it has one.
fn process_in(processes: &[Process], places: &ProcessPlaces, h: usize) -> Option<Process>
    requires { h < length places.now.kept }
    ensures { result ≡ process_in processes.now places.now h }
{
    match number_placed(&places.kept, &places.news, h) {
        Some(number) => copied(processes.get(number)),
        None => None,
    }
}

// A section like this one. It takes no memory.
fn copied(process: Option<&Process>) -> Option<Process>
    ensures { result ≡ option_copied process.entry }
{
    match process {
        Some(process) => Some(process.copy()),
        None => None,
    }
}

// The number of the section of each slot's process.
fn kept_numbers(helpers: &[Helper], processes: &[Process]) -> [Option<usize>; MAX_HELPERS]
    requires { length helpers.now ≡ max_helpers }
    ensures count { length result ≡ max_helpers }
    ensures each { (cfg : Sections) (H : History) → HelpersStand cfg H helpers.now
        → (h : ℕ) (is : Helping) → slice_get helpers.now h ≡ Some is
        → slice_get result h ≡ Some (number_of_process processes.now is.process) }
{
    let mut kept = [None; MAX_HELPERS];
    'helpers: for h in 0..MAX_HELPERS {
        kept[h] = number_of(processes, helpers[h].process());
    }
    kept
}

// The number of the section of a process.
fn number_of(processes: &[Process], process: Option<&Process>) -> Option<usize>
    ensures { result ≡ number_of_process processes.now (option_copied process.entry) }
{
    match process {
        Some(own) => place_of_process(processes, own.name.as_slice()),
        None => None,
    }
}

// Which sections are those of processes in no slot.
fn new_numbers(helpers: &[Helper], processes: &[Process]) -> [bool; MAX_HELPERS]
    ensures count { length result ≡ max_helpers }
    ensures each { (cfg : Sections) (H : History) → HelpersStand cfg H helpers.now → (h : ℕ)
        → h < max_helpers
        → slice_get result h ≡ Some (is_new_process helpers.now (slice_get processes.now h)) }
{
    let mut news = [false; MAX_HELPERS];
    'sections: for h in 0..MAX_HELPERS {
        news[h] = is_new(helpers, processes.get(h));
    }
    news
}

// Whether there is a section, and its process is in no slot.
fn is_new(helpers: &[Helper], section: Option<&Process>) -> bool
    ensures { (cfg : Sections) (H : History) → HelpersStand cfg H helpers.now
        → result ≡ is_new_process helpers.now (option_copied section.entry) }
{
    match section {
        Some(new) => !is_there(helpers, new),
        None => false,
    }
}

// Whether a section's process is in a slot.
fn is_there(helpers: &[Helper], new: &Process) -> bool
    ensures { (cfg : Sections) (H : History) → HelpersStand cfg H helpers.now
        → result
        ≡ list_any (λ (helper : Helping). is_process_of new.now helper.process) helpers.now }
{
    'helpers: for helper in helpers {
        if is_process_of(new, helper.process()) {
            return true;
        }
    }
    false
}

// Whether a process is that of a section.
fn is_process_of(new: &Process, process: Option<&Process>) -> bool
    ensures { result ≡ is_process_of new.now (option_copied process.entry) }
{
    match process {
        Some(own) => own.name.as_slice() == new.name.as_slice(),
        None => false,
    }
}
