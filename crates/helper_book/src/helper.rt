//! A helper slot.
ghost use Rattle.std.specs.Prelude.{ℕ, ◌≡◌, ◌≤◌, ◌<◌, ◌+◌, ◌∷◌, ◌++◌, [], length, take, drop};
ghost use Rattle.std.specs.Prelude.{◌==◌, ◌↔◌, List, Result, Ok, IfOk, IsTrue, true, not, map};
ghost use Rattle.std.specs.Option.{option_copied};
ghost use Rattle.text_forms.specs.Lines.{Line};
ghost use Rattle.route_grammar.specs.declared.fault.ReadFault.{ReadFault};
ghost use Rattle.ack_queue.specs.declared.reply.Reply.TheVariants as told_as;
ghost use Rattle.config_model.specs.Sections.{Sections};
ghost use Rattle.respawn_window.specs.Starts.{Remembers};
ghost use Rattle.helper_core.specs.Lending.{with_replies};
ghost use Rattle.book_history.specs.declared.outcomes.Reload.TheVariants as reload;
ghost use Rattle.book_history.specs.declared.outcomes.Verdict.TheVariants as verdict;
ghost use Rattle.book_history.specs.Bounds.{max_queued};
ghost use Rattle.book_history.specs.Entries.{History};
ghost use Rattle.book_history.specs.Entries.Entry.{LineEntered, RepliesTaken, HelperDeaf};
ghost use Rattle.book_history.specs.Entries.Entry.{HelperGone, SpawnAsked, Reloaded};
ghost use Rattle.book_history.specs.Helpers.{child, is_running};
ghost use Rattle.book_history.specs.Legal.{Allows};
ghost use Rattle.book_history.specs.Replies.{queued, reply_if, refusal};
ghost use Rattle.book_history.specs.Shows.{shown};
ghost use Rattle.book_history.specs.Slots.{process_at};
ghost use Rattle.book_history.specs.Verdicts.{is_late, is_stopping, overflows};
ghost use Rattle.helper_book.specs.Told.{told, settled, spawn_of};

use crate::replying::{acks_after, refusal, replied};
use crate::starting::{self, spawn_of};
use ack_queue::{MAX_QUEUED, MAX_TAKEN, Reply, Shown};
use answers::NoMemory;
use arrayvec::ArrayVec;
use book_history::{Spawn, Take, Why};
use command_grammar::Command;
use config_model::Process;
use helper_core::Slot;
use std::alloc::Global;
use std::marker::Model;

/// A helper slot: its state, the section of its process, if it has one, and whether the lines of its last incarnation
/// are replied to.
///
/// Each call is an event of the daemon, or a part of one. Its contract speaks of every configuration, history and slot
/// number that the helper stands for.
#[derive(Drop)]
pub struct Helper {
    slot: Slot,
    process: Option<Process>,
    acks: bool,
}

impl Model for Helper {
    ghost use Rattle.helper_book.specs.Seen.{Seen};

    ghost Value = { Seen };

    ghost view = { λ helper. record {
      slot = helper.slot;
      process = helper.process;
      acks = helper.acks;
    } };
}

impl Helper {
    ghost use Rattle.helper_book.specs.Stands.{Stands};

    /// The slot at the opening, with the process that the configuration has there.
    pub fn new(alloc: Global, process: Option<Process>) -> Result<Helper, NoMemory>
        ensures { IfOk result (λ helper. (cfg : Sections) (h : ℕ) → process ≡ process_at cfg [] h →
            Stands cfg [] h helper) }
    {
        let mut slot = Slot::new(alloc)?;
        settle(&mut slot, &process);
        Ok(Helper {
            slot,
            process,
            acks: true,
        })
    }

    /// The section of the slot's process.
    pub fn process(&self) -> Option<&Process>
        ensures { (cfg : Sections) (H : History) (h : ℕ) → Stands cfg H h self.now →
            option_copied result ≡ process_at cfg H h }
    {
        self.process.as_ref()
    }

    /// Whether this incarnation runs and isn't deaf.
    pub fn runs(&self, inc: u64) -> bool
        ensures { (cfg : Sections) (H : History) (h : ℕ) → Stands cfg H h self.now →
            result ≡ is_running (child cfg h H) inc }
    {
        self.slot.runs(inc)
    }

    /// Takes the first replies that wait, at most 64. `stopping` says whether the daemon ends.
    pub fn take(&mut self, inc: u64, stopping: bool) -> Take
        ensures { (cfg : Sections) (H : History) (h : ℕ) → Stands cfg H h self.old →
            stopping ≡ is_stopping H →
            Allows cfg H (RepliesTaken h inc result)
            × Stands cfg (RepliesTaken h inc result ∷ H) h self.new }
    {
        if inc != self.slot.last() {
            return Take::Ended;
        }
        if self.slot.queued() != 0 {
            return Take::Replies(taken(&mut self.slot));
        }
        if stopping || !self.slot.runs(inc) {
            return Take::Ended;
        }
        Take::Nothing
    }

    /// Says that an incarnation reads no more replies.
    pub fn deaf(&mut self, inc: u64)
        ensures { (cfg : Sections) (H : History) (h : ℕ) → Stands cfg H h self.old →
            Stands cfg (HelperDeaf h inc ∷ H) h self.new }
    {
        self.slot.deaf(inc);
    }

    /// Says that an incarnation is no more. Its replies stay to be taken.
    pub fn gone(&mut self, inc: u64)
        ensures { (cfg : Sections) (H : History) (h : ℕ) → Stands cfg H h self.old →
            Stands cfg (HelperGone h inc ∷ H) h self.new }
    {
        self.slot.gone(inc);
    }

    /// Whether the process is to be started at a moment in milliseconds. `stopping` says whether the daemon ends.
    pub fn spawn(&mut self, now: u64, stopping: bool) -> Spawn
        ensures { (cfg : Sections) (H : History) (h : ℕ) → Stands cfg H h self.old →
            stopping ≡ is_stopping H →
            Allows cfg H (SpawnAsked h now result)
            × Stands cfg (SpawnAsked h now result ∷ H) h self.new }
    {
        if stopping {
            return Spawn::Stopping;
        }
        let start = self.slot.start(now);
        self.acks = starting::acks_after(start, self.acks);
        spawn_of(start, &self.process)
    }

    /// Gives the slot the process that it has after a reload, or none. Where that is the one that it has with the same
    /// section, nothing changes.
    pub fn reload(&mut self, process: Option<Process>)
        ensures { (cfg new : Sections) (H : History) (h : ℕ) → Stands cfg H h self.old →
            process ≡ process_at cfg (Reloaded new reload.Ok ∷ H) h →
            Stands cfg (Reloaded new reload.Ok ∷ H) h self.new }
    {
        if is_same(&self.process, &process) {
            return;
        }
        settle(&mut self.slot, &process);
        self.process = process;
    }

    /// Whether as many replies wait as the queue holds.
    pub fn is_full(&self) -> bool
        ensures full { IsTrue result ↔ (max_queued ≤ length self.now.slot.replies) }
        ensures busy { (cfg : Sections) (H : History) (h inc : ℕ) → Stands cfg H h self.now →
            is_running (child cfg h H) inc ≡ true →
            result ≡ (length (queued cfg h inc H) == max_queued) }
    {
        self.slot.queued() == MAX_QUEUED
    }

    /// Whether the replies fit that the command of a line is to be given, where these are the routes that it asks to be
    /// shown. Where the queue isn't full those of a command that shows none fit.
    pub fn has_room(&self, command: &Command, routes: &[Shown]) -> bool
        ensures room { IsTrue result ↔ (length self.now.slot.replies
            + length (told self.now.acks command.now routes.now) ≤ max_queued) }
        ensures busy { (cfg : Sections) (H : History) (h inc : ℕ) → Stands cfg H h self.now →
            is_running (child cfg h H) inc ≡ true → length (queued cfg h inc H) < max_queued →
            routes.now ≡ shown cfg H h command.now →
            result ≡ not (overflows cfg H h inc command.now) }
    {
        let own = replied(command, self.acks);
        is_within(MAX_QUEUED - self.slot.queued(), own, routes.len())
    }

    /// Replies to a line of the running incarnation that it is refused.
    pub fn refuse(&mut self, why: Why)
        requires { length self.old.slot.replies < max_queued }
        ensures { (cfg : Sections) (H : History) (h inc : ℕ) (line : Line)
            (reading : Result Command ReadFault) → Stands cfg H h self.old →
            is_running (child cfg h H) inc ≡ true →
            Stands cfg (LineEntered h inc line reading (verdict.Error why) ∷ H) h self.new }
    {
        if !self.acks {
            return;
        }
        put(&mut self.slot, refusal(why));
    }

    /// Replies to a line of the running incarnation that its command is done, by the routes that it asks to be shown.
    pub fn accept(&mut self, command: &Command, routes: &[Shown])
        requires { length self.old.slot.replies
            + length (told self.old.acks command.now routes.now) ≤ max_queued }
        ensures { (cfg : Sections) (H : History) (h inc : ℕ) (line : Line) →
            Stands cfg H h self.old → is_running (child cfg h H) inc ≡ true →
            routes.now ≡ shown cfg H h command.now →
            Stands cfg (LineEntered h inc line (Ok command.now) verdict.Done ∷ H) h self.new }
    {
        tell(&mut self.slot, replied(command, self.acks), routes);
        self.acks = acks_after(command, self.acks);
    }
}

// Gives a slot another process, or none.
fn settle(slot: &mut Slot, process: &Option<Process>)
    ensures slot { slot.new ≡ settled process.now slot.old }
    ensures window { Remembers [] slot.new.starts }
{
    match process {
        Some(process) => slot.place(process.respawn),
        None => slot.remove(),
    }
}

// Whether two sections of a slot say the same.
fn is_same(old: &Option<Process>, new: &Option<Process>) -> bool
    ensures { IsTrue result ↔ (old.now ≡ new.now) }
{
    match (old, new) {
        (Some(old), Some(new)) => old.is_same(new),
        (None, None) => true,
        _ => false,
    }
}

// Takes the first 64 replies that wait, or all.
fn taken(slot: &mut Slot) -> ArrayVec<Reply, MAX_TAKEN>
    ensures first { result.items ≡ take 64 slot.old.replies }
    ensures rest { slot.new ≡ with_replies slot.old (drop 64 slot.old.replies) }
{
    slot.queue().take()
}

// Puts a reply behind those that wait.
fn put(slot: &mut Slot, reply: Reply)
    requires { length slot.old.replies < max_queued }
    ensures { slot.new ≡ with_replies slot.old (slot.old.replies ++ reply ∷ []) }
{
    let _ = slot.queue().put(reply);
}

// Puts routes behind the replies that wait, and one reply behind them where the line is replied to.
fn tell(slot: &mut Slot, on: bool, routes: &[Shown])
    requires { length slot.old.replies + (length routes.now + length (reply_if on told_as.Done))
        ≤ max_queued }
    ensures { slot.new ≡ with_replies slot.old (slot.old.replies
        ++ (map (λ s. told_as.Route s) routes.now ++ reply_if on told_as.Done)) }
{
    show(slot, routes);
    if !on {
        return;
    }
    put(slot, Reply::Done);
}

// Puts routes behind the replies that wait.
fn show(slot: &mut Slot, routes: &[Shown])
    requires { length slot.old.replies + length routes.now ≤ max_queued }
    ensures { slot.new ≡ with_replies slot.old
        (slot.old.replies ++ map (λ s. told_as.Route s) routes.now) }
{
    'routes: for route in routes {
        put(slot, Reply::Route(*route));
    }
}

// Whether so many routes fit, and one reply where the line is replied to.
fn is_within(free: usize, on: bool, routes: usize) -> bool
    ensures { IsTrue result ↔ (routes + length (reply_if on told_as.Done) ≤ free) }
{
    if on {
        return routes < free;
    }
    routes <= free
}
