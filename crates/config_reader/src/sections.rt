//! The sections of a file.
ghost use Rattle.std.specs.Prelude.{◌≡◌, ◌≤◌, ◌+◌, ◌<◌, ◌++◌, length, None, IfOk, false};
ghost use Rattle.config_model.specs.declared.fault.ConfigKind.TheVariants as kind;
ghost use Rattle.config_model.specs.Limits.{max_helpers, max_peers, max_routes};
ghost use Rattle.config_model.specs.Drafts.{IsNeighbor};
ghost use Rattle.config_model.specs.Sections.{place_of_name, place_of_peer, routes_in};
ghost use Rattle.token_reader.specs.Tokens.{front_token};
ghost use Rattle.config_reader.specs.declared.keywords.Section.TheVariants as which;
ghost use Rattle.config_reader.specs.Answered.{Answers};
ghost use Rattle.config_reader.specs.Rules.{is_end, where_so, until};
ghost use Rattle.config_reader.specs.Words.{word_or};
ghost use Rattle.config_reader.specs.Files.{IsSection, is_full, nothing_read, with_heard};
ghost use Rattle.config_reader.specs.Files.{section_body, section_at, sections_read, with_read};

use crate::fault::ConfigError;
use crate::first_words::SectionWord;
use crate::keywords::Section;
use crate::neighbors::neighbor_at;
use crate::processes::process_at;
use crate::words::{fault, front_value};
use crate::written::{FileRead, Heard, NeighborRead};
use answers::NoMemory;
use config_model::{ConfigKind, Draft, Process, Slots};
use route_values::Items;
use std::alloc::Global;
use token_reader::{FileTokens, MAX_FILE, Words};

/// Sections up to the end of the file.
pub fn sections_read(
    alloc: Global,
    words: &mut FileTokens<'_>,
    slots: Slots,
) -> Result<FileRead, ConfigError>
    requires { length words.old.left ≤ MAX_FILE }
    ensures read { Answers (sections_read slots) words.old.end words.old.left words.new.left
        result }
    ensures end { words.new.end ≡ words.old.end }
{
    let mut read = nothing_read(alloc);
    'sections: while !is_end(words) {
        read = section_at(alloc, words, slots, read)?;
    }
    Ok(read)
}

fn nothing_read(alloc: Global) -> FileRead
    ensures { result ≡ nothing_read }
{
    FileRead {
        sections: Draft::new(alloc),
        heard: Items::new(alloc),
    }
}

fn is_end(words: &FileTokens<'_>) -> bool
    ensures { result ≡ is_end (front_token words.now.left) }
{
    words.peek().is_none()
}

// A section besides those that are read, if there may be a further one.
fn section_at(
    alloc: Global,
    words: &mut FileTokens<'_>,
    slots: Slots,
    read: FileRead,
) -> Result<FileRead, ConfigError>
    requires { routes_in read.sections.neighbors + length words.old.left ≤ MAX_FILE }
    ensures read { Answers (section_at slots read) words.old.end words.old.left words.new.left
        result }
    ensures end { words.new.end ≡ words.old.end }
{
    match opened(words, slots, &read)? {
        Section::Process => process_section(words, read),
        Section::Neighbor => neighbor_section(alloc, words, read),
    }
}

// The first word of a section, if there may be a further one of its sort.
fn opened(words: &mut FileTokens<'_>, slots: Slots, read: &FileRead) -> Result<Section, ConfigError>
    ensures read { Answers
        (word_or IsSection
        (λ section. where_so kind.Many (is_full slots read.now.sections section)))
        words.old.end words.old.left words.new.left result }
    ensures end { words.new.end ≡ words.old.end }
    ensures room { IfOk result (λ section. is_full slots read.now.sections section ≡ false) }
    ensures fewer { length words.new.left ≤ length words.old.left }
{
    let Some(section) = front_value(words, &SectionWord) else {
        return Err(fault(words, ConfigKind::Token));
    };
    if is_full(slots, &read.sections, section) {
        return Err(fault(words, ConfigKind::Many));
    }
    words.advance();
    Ok(section)
}

// Whether there are as many sections of a sort as there may be.
fn is_full(slots: Slots, read: &Draft, section: Section) -> bool
    ensures { result ≡ is_full slots read.now section }
{
    match section {
        Section::Process => slots.helpers <= read.processes().len(),
        Section::Neighbor => slots.peers <= read.neighbors().len(),
    }
}

// Behind the word `process`.
fn process_section(words: &mut FileTokens<'_>, read: FileRead) -> Result<FileRead, ConfigError>
    requires { length read.sections.processes < max_helpers }
    ensures read { Answers (section_body read which.Process) words.old.end words.old.left
        words.new.left result }
    ensures end { words.new.end ≡ words.old.end }
{
    let process = process_at(words, read.sections.processes())?;
    Ok(with_process(read, process)?)
}

// Behind the word `neighbor`.
fn neighbor_section(
    alloc: Global,
    words: &mut FileTokens<'_>,
    read: FileRead,
) -> Result<FileRead, ConfigError>
    requires room { length read.sections.neighbors < max_peers }
    requires routes { routes_in read.sections.neighbors + length words.old.left ≤ MAX_FILE }
    ensures read { Answers (section_body read which.Neighbor) words.old.end words.old.left
        words.new.left result }
    ensures end { words.new.end ≡ words.old.end }
{
    let one = neighbor_at(alloc, words, read.sections.neighbors())?;
    Ok(with_neighbor(read, one)?)
}

// With one more process, whose name is new.
fn with_process(read: FileRead, process: Process) -> Result<FileRead, NoMemory>
    requires name { place_of_name read.sections.processes process.name.items ≡ None }
    requires room { length read.sections.processes < max_helpers }
    ensures { IfOk result (λ after. after ≡ with_read read process) }
{
    let mut with = read;
    with.sections.add_process(process)?;
    Ok(with)
}

// With one more neighbour, whose address is new.
fn with_neighbor(read: FileRead, one: NeighborRead) -> Result<FileRead, NoMemory>
    requires peer { place_of_peer read.sections.neighbors one.neighbor.settings.peer ≡ None }
    requires section { IsNeighbor one.neighbor }
    requires room { length read.sections.neighbors < max_peers }
    requires routes { routes_in read.sections.neighbors + length one.neighbor.statics ≤ max_routes }
    ensures { IfOk result (λ after. after ≡ with_heard read one) }
{
    let NeighborRead { neighbor, heard } = one;
    let FileRead {
        mut sections,
        heard: before,
    } = read;
    sections.add_neighbor(neighbor)?;
    let heard = joined(before, heard)?;
    Ok(FileRead { sections, heard })
}

// Names behind others.
fn joined(before: Items<Heard>, more: Items<Heard>) -> Result<Items<Heard>, NoMemory>
    ensures { IfOk result (λ all. all ≡ before ++ more) }
{
    let mut all = before.into_vec();
    let mut more = more.into_vec();
    all.append(&mut more)?;
    Ok(Items::from_vec(all))
}
