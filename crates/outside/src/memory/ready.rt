//! Children and links in memory that are ready to be opened.
ghost use Rattle.std.specs.Prelude.{◌≡◌, [], Some, false, IfOk};
ghost use Rattle.outside.specs.Children.{left_of, ready_content};
ghost use Rattle.outside.specs.Supply.{rest_of};
ghost use Rattle.outside.specs.Links.{link_left, sure_of, ready_bytes};

use crate::link::Link;
use crate::memory::child::{ChildLeash, ChildSink, ChildSource};
use crate::memory::kept::Kept;
use crate::memory::kept_sink::KeptSink;
use crate::memory::listed_link::MemoryLink;
use crate::memory::mark::Mark;
use crate::memory::roll::Roll;
use crate::memory::script::Script;
use crate::memory::sure_link::SureLink;
use crate::memory::sure_source::SureSource;
use crate::sink::Sink;
use crate::source::Source;
use crate::spawner::Pipes;
use route_values::Settings;
use std::alloc::{AllocError, Global};

/// A child in memory that is ready to be started.
#[derive(Drop)]
pub struct ReadyChild<'a> {
    content: &'a [u8],
    source: Script<'a>,
    sink: Script<'a>,
    killed: Option<&'a Mark>,
    bytes: Vec<u8>,
    room: usize,
}

impl<'a> ReadyChild<'a> {
    /// A child that gives this content and then ends, and has room for so many bytes that it takes.
    pub fn new(alloc: Global, content: &'a [u8], room: usize) -> Result<Self, AllocError>
        ensures { IfOk result (λ child. ready_content child ≡ content.now) }
    {
        Ok(ReadyChild {
            content,
            source: Script::new(),
            sink: Script::new(),
            killed: None,
            bytes: Vec::with_capacity(alloc, room)?,
            room,
        })
    }

    /// The same child, with a script for what it gives.
    pub fn giving(mut self, script: Script<'a>) -> Self
        ensures { ready_content result ≡ ready_content self.entry }
    {
        self.source = script;
        self
    }

    /// The same child, with a script for what it takes.
    pub fn taking(mut self, script: Script<'a>) -> Self
        ensures { ready_content result ≡ ready_content self.entry }
    {
        self.sink = script;
        self
    }

    /// The same child, whose kills are counted at a mark. Without one no kill ends its holds.
    pub fn killed_at(mut self, mark: &'a Mark) -> Self
        ensures { ready_content result ≡ ready_content self.entry }
    {
        self.killed = Some(mark);
        self
    }

    // Its pipes, without what is planned to fail or held.
    pub(crate) fn start_surely(self) -> Pipes<SureSource<'a>, KeptSink, ChildLeash<'a>>
        ensures given { ⟦<SureSource<'static> as Source>⟧.given result.source ≡ Some [] }
        ensures ended { ⟦<SureSource<'static> as Source>⟧.ended result.source ≡ false }
        ensures left { rest_of result.source ≡ ready_content self.entry }
        ensures taken { ⟦<KeptSink as Sink>⟧.taken result.sink ≡ Some [] }
    {
        let ReadyChild {
            content,
            source,
            sink,
            killed,
            bytes,
            room,
        } = self;
        Pipes {
            source: SureSource::in_steps(content, source.step.max(1)),
            sink: KeptSink::new(Kept::made(bytes, room), sink.step),
            leash: ChildLeash::new(killed),
        }
    }

    // Its pipes.
    pub(crate) fn start(self) -> Pipes<ChildSource<'a>, ChildSink<'a>, ChildLeash<'a>>
        ensures given { ⟦<ChildSource<'static> as Source>⟧.given result.source ≡ Some [] }
        ensures ended { ⟦<ChildSource<'static> as Source>⟧.ended result.source ≡ false }
        ensures faults { ⟦<ChildSource<'static> as Source>⟧.faults result.source ≡ 0 }
        ensures left { left_of result.source ≡ ready_content self.entry }
        ensures taken { ⟦<ChildSink<'static> as Sink>⟧.taken result.sink ≡ Some [] }
        ensures sink_faults { ⟦<ChildSink<'static> as Sink>⟧.faults result.sink ≡ 0 }
    {
        let ReadyChild {
            content,
            source,
            sink,
            killed,
            bytes,
            room,
        } = self;
        Pipes {
            source: ChildSource::new(content, source, killed),
            sink: ChildSink::new(Kept::made(bytes, room), sink, killed),
            leash: ChildLeash::new(killed),
        }
    }
}

/// A link in memory that is ready to be opened.
#[derive(Drop)]
pub struct ReadyLink<'a> {
    content: &'a [u8],
    ends: bool,
    giving: Script<'a>,
    taking: Script<'a>,
    quiets: Roll<usize>,
    bytes: Vec<u8>,
    room: usize,
}

impl<'a> ReadyLink<'a> {
    /// A link that gives this content and then ends, has room for so many bytes that it takes, and
    /// for what it notes of so many quiet calls.
    pub fn new(
        alloc: Global,
        content: &'a [u8],
        room: usize,
        quiets: usize,
    ) -> Result<Self, AllocError>
        ensures { IfOk result (λ link. ready_bytes link ≡ content.now) }
    {
        Ok(ReadyLink {
            content,
            ends: true,
            giving: Script::new(),
            taking: Script::new(),
            quiets: Roll::new(alloc, quiets)?,
            bytes: Vec::with_capacity(alloc, room)?,
            room,
        })
    }

    /// The same link, which is quiet for good behind its content and doesn't end.
    pub fn quiet(mut self) -> Self
        ensures { ready_bytes result ≡ ready_bytes self.entry }
    {
        self.ends = false;
        self
    }

    /// The same link, with a script for what it gives.
    pub fn giving(mut self, script: Script<'a>) -> Self
        ensures { ready_bytes result ≡ ready_bytes self.entry }
    {
        self.giving = script;
        self
    }

    /// The same link, with a script for what it takes.
    pub fn taking(mut self, script: Script<'a>) -> Self
        ensures { ready_bytes result ≡ ready_bytes self.entry }
    {
        self.taking = script;
        self
    }

    // A link with these settings, without what is planned to fail or held.
    pub(crate) fn open_surely(self, to: &Settings) -> SureLink<'a>
        ensures given { ⟦<SureLink<'static> as Link>⟧.given result ≡ Some [] }
        ensures left { link_left result ≡ ready_bytes self.entry }
        ensures taken { ⟦<SureLink<'static> as Link>⟧.taken result ≡ Some [] }
        ensures quiets { ⟦<SureLink<'static> as Link>⟧.quiets result ≡ Some [] }
        ensures ended { ⟦<SureLink<'static> as Link>⟧.ended result ≡ false }
        ensures dialled { ⟦<SureLink<'static> as Link>⟧.dialled result ≡ Some to.now }
    {
        let ReadyLink {
            content,
            ends,
            giving,
            taking,
            mut quiets,
            bytes,
            room,
        } = self;
        quiets.clear();
        let supply = SureSource::in_steps(content, giving.step.max(1));
        let kept = Kept::made(bytes, room);
        SureLink::new(to, supply, ends, taking.step, quiets, kept)
    }

    // A link with these settings.
    pub(crate) fn open(self, to: &Settings) -> MemoryLink<'a>
        ensures given { ⟦<MemoryLink<'static> as Link>⟧.given result ≡ Some [] }
        ensures left { link_left (sure_of result) ≡ ready_bytes self.entry }
        ensures taken { ⟦<MemoryLink<'static> as Link>⟧.taken result ≡ Some [] }
        ensures quiets { ⟦<MemoryLink<'static> as Link>⟧.quiets result ≡ Some [] }
        ensures ended { ⟦<MemoryLink<'static> as Link>⟧.ended result ≡ false }
        ensures faults { ⟦<MemoryLink<'static> as Link>⟧.faults result ≡ 0 }
        ensures dialled { ⟦<MemoryLink<'static> as Link>⟧.dialled result ≡ Some to.now }
    {
        let giving = self.giving;
        let taking = self.taking;
        MemoryLink::new(self.open_surely(to), giving, taking)
    }
}
