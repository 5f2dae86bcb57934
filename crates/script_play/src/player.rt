//! A book to which the events of a script happen.
ghost use Rattle.std.specs.Prelude.{◌≡◌, ℕ, List, [], Option, IfOk, IsTrue};
ghost use Rattle.outside.specs.Lent.{LendsNone};
ghost use Rattle.outside.specs.Seen.{sink_seen};
ghost use Rattle.attr_codec.specs.Buffer.{max_message};
ghost use Rattle.config_model.specs.Sections.{Sections};
ghost use Rattle.book_history.specs.Entries.{History};
ghost use Rattle.book_core.specs.Stands.{Stands};
ghost use Rattle.script_grammar.specs.Events.{Reload, event_told};
ghost use Rattle.script_grammar.specs.Laws.{HasSlot};
ghost use Rattle.text_history.specs.Plays.{is_known};
ghost use Rattle.script_play.specs.Entering.{Enters, PutsAsked};
ghost use Rattle.script_play.specs.Player.{AreKnown, PlayerStands};

use crate::buffer::Buffer;
use crate::halt::Halt;
use crate::hashing::fixed_state;
use crate::writing::write;
use answers::NoMemory;
use book_core::Book;
use config_model::{Config, MAX_PEERS};
use outside::{Files, Sink};
use route_values::Settings;
use script_grammar::Event;
use std::alloc::Global;

/// A book to which the events of a script happen, with what the events before told of neighbours. Its buffers are used
/// again for each event.
#[derive(Drop)]
pub struct Player {
    pub(crate) alloc: Global,
    pub(crate) book: Book,
    // The settings that each neighbour slot told last.
    pub(crate) known: [Option<Settings>; MAX_PEERS],
    pub(crate) message: Buffer,
    // What is printed of the event that was entered last.
    pub(crate) text: Vec<u8>,
}

impl Player {
    /// A player of a newly opened book.
    pub fn new(alloc: Global, config: Config) -> Result<Player, NoMemory>
        ensures { IfOk result (PlayerStands config []) }
    {
        let hasher = fixed_state()?;
        let message = Buffer::new(alloc)?;
        let book = Book::open(alloc, config, hasher)?;
        Ok(Player::of(alloc, book, message))
    }

    // A player of a book to which nothing has happened.
    fn of(alloc: Global, book: Book, message: Buffer) -> Player
        requires { message.room ≡ max_message }
        ensures { (cfg : Sections) → Stands cfg [] book → PlayerStands cfg [] result }
    {
        Player {
            alloc,
            book,
            known: none_known(),
            message,
            text: Vec::new(alloc),
        }
    }

    /// Whether an event can be entered: one of a session that comes up needs settings that its slot told before.
    pub fn knows(&self, event: &Event<'_>) -> bool
        requires { HasSlot (event_told event.now) }
        ensures { (cfg : Sections) (H : History) → PlayerStands cfg H self.now
            → result ≡ is_known H (event_told event.now) }
    {
        match event {
            Event::Up { n, .. } => self.known[*n].is_some(),
            _ => true,
        }
    }

    /// Enters an event that can be entered, and writes what it is answered.
    pub fn enter<F: Files, K: Sink>(
        &mut self,
        files: &mut F,
        event: &Event<'_>,
        output: &mut K,
    ) -> Result<(), Halt>
        requires slot { HasSlot (event_told event.now) }
        requires known { (cfg : Sections) (H : History) → PlayerStands cfg H self.old
            → IsTrue (is_known H (event_told event.now)) }
        ensures entered { (cfg : Sections) (H : History) → PlayerStands cfg H self.old
            → Enters (F.content files.old) cfg H (event_told event.now) self.new
            (F.faults files.old) (F.faults files.new) (sink_seen K.taken K.faults output.old)
            (sink_seen K.taken K.faults output.new) result }
        ensures content { F.content files.new ≡ F.content files.old }
        ensures back { LendsNone (F.lent files.old) (F.lent files.new) }
    {
        match event {
            Event::Drain { n } => self.drain(*n, output),
            Event::Reload { path } => self.enter_reload(files, path, output),
            _ => self.enter_one(event, output),
        }
    }

    // Enters the reload by a file, and writes what became of it.
    fn enter_reload<F: Files, K: Sink>(
        &mut self,
        files: &mut F,
        path: &str,
        output: &mut K,
    ) -> Result<(), Halt>
        ensures entered { (cfg : Sections) (H : History) → PlayerStands cfg H self.old
            → Enters (F.content files.old) cfg H (Reload path.now) self.new
            (F.faults files.old) (F.faults files.new) (sink_seen K.taken K.faults output.old)
            (sink_seen K.taken K.faults output.new) result }
        ensures content { F.content files.new ≡ F.content files.old }
        ensures back { LendsNone (F.lent files.old) (F.lent files.new) }
    {
        self.reload(files, path)?;
        write(output, &self.text)
    }

    // Enters an event that is one call of the book alone, and writes what it is answered.
    fn enter_one<K: Sink>(&mut self, event: &Event<'_>, output: &mut K) -> Result<(), Halt>
        requires slot { HasSlot (event_told event.now) }
        requires known { (cfg : Sections) (H : History) → PlayerStands cfg H self.old
            → IsTrue (is_known H (event_told event.now)) }
        ensures { (content : Option (List ℕ → List ℕ)) (files : ℕ) (cfg : Sections) (H : History)
            → PlayerStands cfg H self.old → Enters content cfg H (event_told event.now) self.new
            files files (sink_seen K.taken K.faults output.old)
            (sink_seen K.taken K.faults output.new) result }
    {
        self.ask(event)?;
        write(output, &self.text)
    }

    // Enters an event that is one call of the book alone.
    fn ask(&mut self, event: &Event<'_>) -> Result<(), NoMemory>
        requires { HasSlot (event_told event.now) }
        ensures { PutsAsked self.old self.new (event_told event.now) result }
    {
        match event {
            Event::Spawn { h, now } => self.spawn(*h, *now),
            Event::Line { h, inc, line } => self.line(*h, *inc, *line),
            Event::Take { h, inc } => self.take(*h, *inc),
            Event::Deaf { h, inc } => self.deaf(*h, *inc),
            Event::Gone { h, inc } => self.gone(*h, *inc),
            Event::Peer { n } => self.peer(*n),
            Event::Up { n, caps } => self.up(*n, *caps),
            Event::Down { n } => self.down(*n),
            Event::Refresh { n, family } => self.refresh(*n, *family),
            Event::Cut { n } => self.cut(*n),
            Event::Control => self.control(),
            Event::Drain { .. } | Event::Reload { .. } => Err(NoMemory),
        }
    }
}

// Before anything happens no slot has told its settings.
fn none_known() -> [Option<Settings>; MAX_PEERS]
    ensures { AreKnown [] result }
{
    [None; MAX_PEERS]
}
