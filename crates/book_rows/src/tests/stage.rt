//! A book on which a story is played.
use super::events::{At, Carried, Event, Step};
use super::told::{
    expect, of_control, of_count, of_cut, of_line, of_measure, of_peer, of_reload, of_silence,
    of_spawn, of_take, of_up, said,
};
use attr_codec::Message;
use book_core::{Book, Cut, NotRead, Peer, Verdict};
use command_grammar::ReadLine;
use config_model::{Config, MAX_HELPERS, MAX_PEERS, Settings, Slots};
use config_reader::{ConfigError, read_config};
use std::alloc::Global;
use std::hash::RandomState;
use std::test::Fail;
use text_forms::Line;

// The helper slot of all stories.
pub const HELPER: usize = 0;

// How many bytes a buffer has room for that serves every session.
const ROOM: usize = 65_535;

// How many messages are cut at most until none comes.
const MANY: u32 = 1_000;

// A book, and the settings that it told last.
#[derive(Drop)]
pub struct Stage {
    alloc: Global,
    book: Book,
    seen: Option<Settings>,
}

// Plays the parts of a story, one behind the other, on a book of this file.
pub fn play(rt: &HostRuntime, file: &str, parts: &[&[Step]]) -> Result<(), Fail> {
    let mut stage = Stage::open(rt, file)?;
    'parts: for part in parts {
        stage.play(part)?;
    }
    Ok(())
}

// What a file says.
pub fn read(alloc: Global, file: &str) -> Result<Config, ConfigError> {
    let slots = Slots {
        helpers: MAX_HELPERS,
        peers: MAX_PEERS,
    };
    read_config(alloc, file.as_bytes(), slots)
}

impl Stage {
    pub fn open(rt: &HostRuntime, file: &str) -> Result<Stage, Fail> {
        let alloc = rt.alloc();
        let hasher = RandomState::new(rt)?;
        let config = read(alloc, file)?;
        let book = Book::open(alloc, config, hasher)?;
        Ok(Stage {
            alloc,
            book,
            seen: None,
        })
    }

    // Plays the events in order. It fails at the first one that isn't answered as it says.
    pub fn play(&mut self, story: &[Step]) -> Result<(), Fail> {
        'steps: for (event, wanted) in story {
            self.step(event, wanted)?;
        }
        Ok(())
    }

    // Plays one event.
    pub fn step(&mut self, event: &Event, wanted: &str) -> Result<(), Fail> {
        let told = self.tell(event)?;
        expect(self.alloc, told.as_str(), wanted)
    }

    // What an event is answered.
    fn tell(&mut self, event: &Event) -> Result<String, Fail> {
        match event {
            Event::Line(inc, text) => of_line(self.alloc, self.line(*inc, text)),
            Event::Lines(times, text) => of_line(self.alloc, self.lines(*times, text)),
            Event::Block(words, first, count) => self.block(words, *first, *count),
            Event::Control => of_control(self.alloc, self.book.control()),
            Event::Reload(file) => self.reload(file),
            _ => self.tell_of_helper(event),
        }
    }

    // What an event of the helper is answered.
    fn tell_of_helper(&mut self, event: &Event) -> Result<String, Fail> {
        match event {
            Event::Spawn(now) => of_spawn(self.alloc, self.book.spawn(HELPER, *now)),
            Event::Take(inc) => of_take(self.alloc, self.book.take(HELPER, *inc)),
            Event::Count(inc) => of_count(self.alloc, self.book.take(HELPER, *inc)),
            Event::Deaf(inc) => {
                self.book.deaf(HELPER, *inc);
                said(self.alloc, "ok")
            }
            Event::Gone(inc) => {
                self.book.gone(HELPER, *inc);
                said(self.alloc, "ok")
            }
            _ => self.tell_of_session(event),
        }
    }

    // What an event of a neighbour is answered.
    fn tell_of_session(&mut self, event: &Event) -> Result<String, Fail> {
        match event {
            Event::Peer(at) => of_peer(self.alloc, self.peer(*at)),
            Event::Up(at, carried) => self.up(*at, *carried),
            Event::Down(at) => {
                self.book.down(at.slot());
                said(self.alloc, "ok")
            }
            Event::Refresh(at, family) => {
                self.book.refresh(at.slot(), *family);
                said(self.alloc, "ok")
            }
            _ => self.tell_of_messages(event),
        }
    }

    // What is cut.
    fn tell_of_messages(&mut self, event: &Event) -> Result<String, Fail> {
        match event {
            Event::Cut(at) => self.cut(*at),
            Event::Measure(at) => self.measure(*at),
            Event::Drain(at) => self.drain(*at),
            _ => said(self.alloc, "no event"),
        }
    }

    // An incarnation says a line.
    fn line(&mut self, inc: u64, text: &str) -> Verdict {
        let read = ReadLine::new(self.alloc, Line::Text(text.as_bytes()));
        self.book.line(HELPER, inc, &read)
    }

    // The first incarnation says a line so many times, or until it isn't done.
    fn lines(&mut self, times: u32, text: &str) -> Verdict {
        'times: for _ in 0..times {
            let verdict = self.line(1, text);
            if verdict != Verdict::Done {
                return verdict;
            }
        }
        Verdict::Done
    }

    // The first incarnation announces many prefixes, from 10.0.0.0/24 on, with these words in front.
    fn block(&mut self, words: &str, first: u32, count: u32) -> Result<String, Fail> {
        let text = nets(self.alloc, words, first, count)?;
        of_line(self.alloc, self.line(1, text.as_str()))
    }

    // Which neighbour is in a slot. Its settings are kept.
    fn peer(&mut self, at: At) -> Peer {
        let peer = self.book.peer(at.slot());
        if let Peer::Is(settings) = peer {
            self.seen = Some(settings);
        }
        peer
    }

    // A session comes up with the settings that were told last.
    fn up(&mut self, at: At, carried: Carried) -> Result<String, Fail> {
        let Some(settings) = self.seen else {
            return said(self.alloc, "no settings were told");
        };
        let up = self.book.up(at.slot(), &settings, carried.caps());
        of_up(self.alloc, up)
    }

    fn cut(&mut self, at: At) -> Result<String, Fail> {
        let mut out = Message::new(self.alloc, ROOM)?;
        let cut = self.book.cut(at.slot(), &mut out);
        of_cut(self.alloc, cut, out.bytes())
    }

    fn measure(&mut self, at: At) -> Result<String, Fail> {
        let mut out = Message::new(self.alloc, ROOM)?;
        let cut = self.book.cut(at.slot(), &mut out);
        of_measure(self.alloc, cut, out.bytes())
    }

    // Cuts until no message comes.
    fn drain(&mut self, at: At) -> Result<String, Fail> {
        for count in 0..MANY {
            let cut = self.next(at)?;
            if !matches!(cut, Cut::Message { .. }) {
                return of_silence(self.alloc, count, cut);
            }
        }
        said(self.alloc, "too many messages")
    }

    // Cuts, and passes over the message.
    fn next(&mut self, at: At) -> Result<Cut, Fail> {
        let mut out = Message::new(self.alloc, ROOM)?;
        Ok(self.book.cut(at.slot(), &mut out))
    }

    // Reads a file again.
    fn reload(&mut self, file: &str) -> Result<String, Fail> {
        match read(self.alloc, file) {
            Ok(config) => of_reload(self.alloc, self.book.reload(config)),
            Err(ConfigError::Refused(fault)) => {
                self.book.reload_refused(NotRead::Refused(fault));
                Ok(format!(in self.alloc; "refused {fault}")?)
            }
            Err(ConfigError::NoMemory) => said(self.alloc, "no memory"),
        }
    }
}

// A line that announces so many prefixes, from this number on.
fn nets(alloc: Global, words: &str, first: u32, count: u32) -> Result<String, Fail> {
    let mut text = String::from_str(alloc, words)?;
    text.push_str("announce attributes next-hop 192.0.2.1 nlri")?;
    'numbers: for number in first..first.saturating_add(count) {
        put_net(alloc, &mut text, number)?;
    }
    Ok(text)
}

// Puts the network of a number: 10.0.0.0/24 is the first one.
fn put_net(alloc: Global, text: &mut String, number: u32) -> Result<(), Fail> {
    let (third, second, first) = (number % 256, number / 256 % 256, number / 65_536);
    let first = first.saturating_add(10);
    let net = format!(in alloc; " {first}.{second}.{third}.0/24")?;
    text.push_str(net.as_str())?;
    Ok(())
}
