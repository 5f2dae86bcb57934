//! What is counted of a load.
ghost use Rattle.std.specs.Prelude.{◌≡◌, ◌+◌, ◌≤◌, ◌++◌, ◌∷◌, ℕ, Bool, [], Result, IfOk, OnOk};
ghost use Rattle.std.specs.Prelude.{length};
ghost use Rattle.std.specs.List.{flat_map};
ghost use Rattle.text_forms.specs.Lines.{Line};
ghost use Rattle.route_grammar.specs.declared.fault.ReadFault.{ReadFault};
ghost use Rattle.command_grammar.specs.declared.command.Command.{Command};
ghost use Rattle.update_grammar.specs.Update.{gone_all};
ghost use Rattle.update_grammar.specs.Written.{body_of};
ghost use Rattle.update_codec.specs.Effects.{announced_effects};
ghost use Rattle.peer_history.specs.Messages.{said};
ghost use Rattle.book_history.specs.declared.outcomes.Cut.TheVariants as cut;
ghost use Rattle.book_history.specs.Entries.{History};
ghost use Rattle.book_history.specs.Entries.Entry.{LineEntered, MessageCut};
ghost use Rattle.script_play.specs.Counting.{TakesEffects, counts_told, effects_of};
ghost use Rattle.script_play.specs.Loads.{count_line, counts_of, counts_text, load_caps};
ghost use Rattle.script_play.specs.Loading.{Tallies};

use crate::standing::Standing;
use answers::NoMemory;
use arrayvec::ArrayVec;
use book_core::Verdict;
use route_values::{Caps, Family, Key};
use std::alloc::Global;
use text_forms::put_u64;
use update_codec::{Announced, Effects, read_update};
use update_grammar::{AttrFault, UpdateFault};

// How many bytes the header of a message has (RFC 4271, section 4.1).
const HEADER_LEN: usize = 19;

// How many bytes a line of a count has at most: a word of up to nine, a space, a number of up to twenty, a line feed.
const LINE_ROOM: usize = 32;

/// What was counted of a history so far.
#[derive(Drop)]
pub struct Tally {
    pub(crate) lines: u64,
    pub(crate) done: u64,
    pub(crate) errors: u64,
    pub(crate) messages: u64,
    pub(crate) bytes: u64,
    pub(crate) announced: u64,
    pub(crate) withdrawn: u64,
    // The keys that the messages leave at the neighbour.
    pub(crate) left: Standing,
}

impl Tally {
    /// Nothing was counted. It takes no memory.
    pub fn new(alloc: Global) -> Tally
        ensures { Tallies [] result }
    {
        Tally {
            lines: 0,
            done: 0,
            errors: 0,
            messages: 0,
            bytes: 0,
            announced: 0,
            withdrawn: 0,
            left: Standing::new(alloc),
        }
    }

    /// Counts a line by what became of it.
    pub fn line(&mut self, given: Verdict) -> Result<(), NoMemory>
        ensures { OnOk result ((H : History) (h : ℕ) (inc : ℕ) (text : Line)
            (reading : Result Command ReadFault) → Tallies H self.old
            → Tallies (LineEntered h inc text reading given ∷ H) self.new) }
    {
        self.lines = more(self.lines, 1)?;
        match given {
            Verdict::Done => {
                self.done = more(self.done, 1)?;
                Ok(())
            }
            Verdict::Error(_) => {
                self.errors = more(self.errors, 1)?;
                Ok(())
            }
            Verdict::Ended | Verdict::Busy => Ok(()),
        }
    }

    /// Counts a message, and what it says by the grammar.
    pub fn message(&mut self, alloc: Global, bytes: &[u8]) -> Result<(), NoMemory>
        ensures { OnOk result ((H : History) (n : ℕ) (last : Bool) → Tallies H self.old
            → Tallies (MessageCut n bytes.now (cut.Message last) ∷ H) self.new) }
    {
        self.messages = more(self.messages, 1)?;
        self.bytes = more(self.bytes, bytes.len())?;
        let said = said(alloc, bytes)?;
        self.count_said(&said)
    }

    /// The counts, where so many routes were asked for.
    pub fn text(&self, alloc: Global, count: u32) -> Result<Vec<u8>, NoMemory>
        ensures { IfOk result (λ text. (H : History) → Tallies H self.now
            → text.items ≡ counts_text (counts_of count H)) }
    {
        let left = self.left.len();
        self.told(alloc, count, left as u64)
    }

    // The text of the counts, where so many routes are left.
    fn told(&self, alloc: Global, count: u32, left: u64) -> Result<Vec<u8>, NoMemory>
        ensures { IfOk result (λ text.
            text.items ≡ counts_text (counts_told count self.now left)) }
    {
        let mut text = Vec::new(alloc);
        put_count(b"routes", u64::from(count), &mut text)?;
        put_count(b"lines", self.lines, &mut text)?;
        put_count(b"done", self.done, &mut text)?;
        put_count(b"error", self.errors, &mut text)?;
        put_count(b"messages", self.messages, &mut text)?;
        put_count(b"bytes", self.bytes, &mut text)?;
        put_count(b"announced", self.announced, &mut text)?;
        put_count(b"withdrawn", self.withdrawn, &mut text)?;
        put_count(b"left", left, &mut text)?;
        Ok(text)
    }

    // Counts what a message says, if it says anything.
    fn count_said(&mut self, said: &Option<Effects>) -> Result<(), NoMemory>
        ensures { TakesEffects (effects_of said.now) self.old self.new result }
    {
        match said {
            Some(effects) => self.effects(effects),
            None => Ok(()),
        }
    }

    // Counts the effects of a message.
    fn effects(&mut self, effects: &Effects) -> Result<(), NoMemory>
        ensures { TakesEffects effects.now self.old self.new result }
    {
        let parts = effects.parts();
        self.gone(parts.gone)?;
        self.here(parts.here)
    }

    // Counts keys that are withdrawn.
    fn gone(&mut self, keys: &[Key]) -> Result<(), NoMemory>
        ensures { TakesEffects (gone_all keys.now) self.old self.new result }
    {
        self.withdrawn = more(self.withdrawn, keys.len())?;
        self.left.withdraw(keys);
        Ok(())
    }

    // Counts announcements.
    fn here(&mut self, here: &[Announced]) -> Result<(), NoMemory>
        ensures { TakesEffects (flat_map announced_effects here.now) self.old self.new result }
    {
        'announced: for announced in here {
            self.announced(announced)?;
        }
        Ok(())
    }

    // Counts keys that are announced with the same attributes.
    fn announced(&mut self, announced: &Announced) -> Result<(), NoMemory>
        ensures { TakesEffects (announced_effects announced.now) self.old self.new result }
    {
        self.announced = more(self.announced, announced.keys.len())?;
        self.left.announce(announced)
    }
}

// A count that has grown. More than 64 bits count is told as want of memory.
fn more(count: u64, by: usize) -> Result<u64, NoMemory>
    ensures { IfOk result (λ grown. grown ≡ count + by) }
{
    match count.checked_add(by as u64) {
        Some(grown) => Ok(grown),
        None => Err(NoMemory),
    }
}

// The effects of a message. One that says nothing by the grammar has none.
fn said(alloc: Global, bytes: &[u8]) -> Result<Option<Effects>, NoMemory>
    ensures { IfOk result (λ found. effects_of found ≡ said load_caps bytes.now) }
{
    let body = body_of(bytes);
    let caps = Caps::none().with(Family::Ipv4, false);
    match read_update(alloc, body, &caps) {
        Ok(effects) => Ok(Some(effects)),
        Err(UpdateFault::Attr(AttrFault::NoMemory)) => Err(NoMemory),
        Err(_) => Ok(None),
    }
}

// The bytes behind the header.
fn body_of(bytes: &[u8]) -> &[u8]
    ensures { result.now ≡ body_of bytes.now }
{
    match bytes.get(HEADER_LEN..) {
        Some(body) => body,
        None => &[],
    }
}

// Puts the line of a count behind a text.
fn put_count(word: &[u8], count: u64, text: &mut Vec<u8>) -> Result<(), NoMemory>
    requires { length word.now ≤ 9 }
    ensures { OnOk result (text.new.items ≡ text.old.items ++ count_line word.now count) }
{
    let mut line: ArrayVec<u8, LINE_ROOM> = ArrayVec::new();
    let _ = line.try_extend_from_slice(word);
    line.push(b' ');
    put_u64(count, &mut line);
    line.push(b'\n');
    text.extend_from_slice(&line)?;
    Ok(())
}
