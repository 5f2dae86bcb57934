//! Lines of helpers.
ghost use Rattle.std.specs.Prelude.{◌≡◌, ◌<◌, ◌∷◌, ◌&&◌, ◌||◌, not, false, length, is_some, Ok};
ghost use Rattle.std.specs.List.{list_any};
ghost use Rattle.text_forms.specs.Lines.{Line};
ghost use Rattle.config_model.specs.Limits.{max_helpers, max_peers};
ghost use Rattle.config_model.specs.Sections.{Sections};
ghost use Rattle.book_history.specs.declared.outcomes.Verdict.TheVariants as verdict;
ghost use Rattle.book_history.specs.Entries.{History};
ghost use Rattle.book_history.specs.Entries.Entry.{LineEntered};
ghost use Rattle.book_history.specs.Legal.{Allows};
ghost use Rattle.book_history.specs.Selecting.{pick_of};
ghost use Rattle.book_history.specs.Verdicts.{is_late};
ghost use Rattle.book_core.specs.Announcing.{AllServe};
ghost use Rattle.book_core.specs.Choosing.{is_announce, is_show};
ghost use Rattle.book_core.specs.Lines.{HasRoom, IsReadSo, IsSaid, Answers, Does, Refuses};
ghost use Rattle.book_core.specs.Lines.{Selects, why_of};
ghost use Rattle.book_core.specs.Stands.{Stands};

use crate::book::Book;
use crate::choosing::{Chosen, choose, pick_of};
use book_history::{Verdict, Why};
use command_grammar::{Command, ReadLine};
use route_grammar::ReadFault;

impl Book {
    /// Enters a line of an incarnation of a helper slot.
    ///
    /// `Ended` comes where the incarnation doesn't run or the daemon ends, and then `Busy` where its replies fill their
    /// queue: neither changes anything. `Error` says why the line is refused: its helper is told so, where it is told
    /// anything, and nothing else changes. `Done` says that the command was done for all neighbours that it is for.
    pub fn line(&mut self, h: usize, inc: u64, read: &ReadLine<'_>) -> Verdict
        requires { h < max_helpers }
        ensures { (cfg : Sections) (H : History) → Stands cfg H self.old →
            Allows cfg H (LineEntered h inc read.now.line read.now.reading result)
            × Stands cfg (LineEntered h inc read.now.line read.now.reading result ∷ H) self.new }
    {
        let reading = read.reading();
        if self.is_late(h, inc) {
            return Verdict::Ended;
        }
        let helper = &self.helpers[h];
        if helper.is_full() {
            return Verdict::Busy;
        }
        self.enter(h, reading)
    }

    // Does what a line in time was read as.
    fn enter(&mut self, h: usize, reading: &Result<Command, ReadFault>) -> Verdict
        requires slot { h < max_helpers }
        requires room { HasRoom h self.old }
        requires said { IsReadSo reading.now }
        ensures { Answers h reading.now result self.old self.new }
    {
        match reading {
            Err(fault) => self.refuse(h, why_of(*fault)),
            Ok(command) => self.command(h, command),
        }
    }

    // Does a command that a line said.
    fn command(&mut self, h: usize, command: &Command) -> Verdict
        requires slot { h < max_helpers }
        requires room { HasRoom h self.old }
        requires said { IsSaid command.now }
        ensures { Answers h (Ok command.now) result self.old self.new }
    {
        let chosen = self.chosen(h, command);
        if is_for_none(command, &chosen) {
            return self.refuse(h, Why::NoMatch);
        }
        self.serve(h, command, &chosen)
    }

    // Does it for the slots that it is for.
    fn serve(&mut self, h: usize, command: &Command, chosen: &[bool]) -> Verdict
        requires slot { h < max_helpers }
        requires many { length chosen.now ≡ max_peers }
        requires room { HasRoom h self.old }
        requires said { IsSaid command.now }
        requires serve { AllServe command.now chosen.now self.old.peers }
        ensures { Does h command.now chosen.now result self.old self.new }
    {
        if is_announce(command) {
            return self.announce(h, command, chosen);
        }
        if is_show(command) {
            return self.show(h, command, chosen);
        }
        self.carry(h, command, chosen)
    }

    // The slots that a command of the helper in a slot is for.
    fn chosen(&self, h: usize, command: &Command) -> Chosen
        requires { h < max_helpers }
        ensures many { length result ≡ max_peers }
        ensures selects { (cfg : Sections) (H : History) → Stands cfg H self.now →
            Selects cfg H h command.now result }
        ensures serve { AllServe command.now result self.now.peers }
    {
        let helper = &self.helpers[h];
        choose(helper.process(), command, &self.peers)
    }

    // Whether it is too late for an incarnation.
    fn is_late(&self, h: usize, inc: u64) -> bool
        requires { h < max_helpers }
        ensures { (cfg : Sections) (H : History) → Stands cfg H self.now →
            result ≡ is_late cfg H h inc }
    {
        let stopping = self.stopping;
        let helper = &self.helpers[h];
        is_over(helper.runs(inc), stopping)
    }

    // Refuses a line, of which its helper is told.
    pub(crate) fn refuse(&mut self, h: usize, why: Why) -> Verdict
        requires slot { h < max_helpers }
        requires room { HasRoom h self.old }
        ensures error { result ≡ verdict.Error why }
        ensures refuses { Refuses h why self.old self.new }
    {
        let helper = &mut self.helpers[h];
        helper.refuse(why);
        Verdict::Error(why)
    }
}

// Whether a command announces routes.
fn is_announce(command: &Command) -> bool
    ensures { result ≡ is_announce command.now }
{
    match command {
        Command::Announce { .. } => true,
        _ => false,
    }
}

// Whether it asks for routes to be shown.
fn is_show(command: &Command) -> bool
    ensures { result ≡ is_show command.now }
{
    match command {
        Command::Show { .. } => true,
        _ => false,
    }
}

// Whether an incarnation doesn't run, or the daemon ends.
fn is_over(runs: bool, stopping: bool) -> bool
    ensures { result ≡ (not runs || stopping) }
{
    !runs || stopping
}

// Whether a command is for neighbours, and no slot is chosen.
fn is_for_none(command: &Command, chosen: &Chosen) -> bool
    ensures { result ≡ (is_some (pick_of command.now) && not (list_any (λ so. so) chosen.now)) }
{
    pick_of(command).is_some() && !is_any(chosen)
}

// Whether any slot is chosen.
fn is_any(chosen: &[bool]) -> bool
    ensures { result ≡ list_any (λ so. so) chosen.now }
{
    chosen.iter().any(|so| *so)
}

// Why a line without a command is refused.
fn why_of(fault: ReadFault) -> Why
    ensures { result ≡ why_of fault }
{
    match fault {
        ReadFault::Line(fault) => Why::Line(fault),
        ReadFault::NoMemory => Why::NoMemory,
    }
}
