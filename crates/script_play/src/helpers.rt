//! Events of a helper slot.
ghost use Rattle.std.specs.Prelude.{◌<◌};
ghost use Rattle.config_model.specs.Limits.{max_helpers};
ghost use Rattle.text_forms.specs.LineTold.{line_told};
ghost use Rattle.script_grammar.specs.Events as events;
ghost use Rattle.script_play.specs.Entering.{PutsAsked};

use crate::player::Player;
use answer_texts::{put_ok, put_spawn, put_take, put_verdict};
use answers::NoMemory;
use command_grammar::ReadLine;
use text_forms::Line;

impl Player {
    // Whether a helper may be started at a moment.
    pub(crate) fn spawn(&mut self, h: usize, now: u64) -> Result<(), NoMemory>
        requires { h < max_helpers }
        ensures { PutsAsked self.old self.new (events.Spawn h now) result }
    {
        let given = self.book.spawn(h, now);
        self.text.clear();
        put_spawn(&mut self.text, given)
    }

    // A helper says a line.
    pub(crate) fn line(&mut self, h: usize, inc: u64, line: Line<'_>) -> Result<(), NoMemory>
        requires { h < max_helpers }
        ensures { PutsAsked self.old self.new (events.Line h inc (line_told line.entry)) result }
    {
        let read = ReadLine::new(self.alloc, line);
        let given = self.book.line(h, inc, &read);
        self.text.clear();
        put_verdict(&mut self.text, given)
    }

    // Replies of a helper are taken.
    pub(crate) fn take(&mut self, h: usize, inc: u64) -> Result<(), NoMemory>
        requires { h < max_helpers }
        ensures { PutsAsked self.old self.new (events.Take h inc) result }
    {
        let given = self.book.take(h, inc);
        self.text.clear();
        put_take(&mut self.text, given)
    }

    // A helper reads no more replies.
    pub(crate) fn deaf(&mut self, h: usize, inc: u64) -> Result<(), NoMemory>
        requires { h < max_helpers }
        ensures { PutsAsked self.old self.new (events.Deaf h inc) result }
    {
        self.book.deaf(h, inc);
        self.text.clear();
        put_ok(&mut self.text)
    }

    // A helper is no more.
    pub(crate) fn gone(&mut self, h: usize, inc: u64) -> Result<(), NoMemory>
        requires { h < max_helpers }
        ensures { PutsAsked self.old self.new (events.Gone h inc) result }
    {
        self.book.gone(h, inc);
        self.text.clear();
        put_ok(&mut self.text)
    }
}
