//! What no clause says: that the calls find memory, and that each has an answer other than a refusal.
ghost use Rattle.std.specs.Prelude.{◌≡◌, [], IfOk};
ghost use Rattle.config_model.specs.Drafts.{IsNeighbor};

use crate::{Book, Control, Cut, NoMemory, NotRead, Peer, Reload, Spawn, Take, Up, Verdict};
use arrayvec::ArrayVec;
use attr_codec::Message;
use command_grammar::ReadLine;
use config_model::{Config, Draft, Neighbor, Process, Settings, check};
use route_values::{Addr, Caps, Family, Items};
use std::alloc::Global;
use std::hash::RandomState;
use std::test::Fail;
use text_forms::Line;

// How many bytes a buffer has room for that serves every session.
const ROOM: usize = 65_535;

// The line of a route.
const ROUTE: &[u8] = b"announce route 10.0.0.0/24 next-hop 192.0.2.1";

// A neighbour of another AS, which is spoken to in IPv4 alone.
const SETTINGS: Settings = Settings {
    peer: Addr::V4(0xC000_0202),
    local: Addr::V4(0xC000_0209),
    port: 179,
    local_as: 65_001,
    peer_as: 65_002,
    router_id: 0xC000_0209,
    hold: 180,
    ipv4: true,
    ipv6: false,
    ipv4_send: false,
    ipv6_send: false,
    ipv4_receive: false,
    ipv6_receive: false,
    refresh: true,
    extended: false,
};

fn bytes<const N: usize>(text: &[u8]) -> ArrayVec<u8, N> {
    let mut bytes = ArrayVec::new();
    let _ = bytes.try_extend_from_slice(text);
    bytes
}

fn process() -> Process {
    Process {
        name: bytes(b"h"),
        run: bytes(b"/bin/cat"),
        json: false,
        respawn: true,
    }
}

// The neighbour, which hears the process.
fn neighbor(alloc: Global) -> Result<Neighbor, NoMemory>
    ensures one { IfOk result IsNeighbor }
    ensures bare { IfOk result (λ neighbor. neighbor.statics ≡ []) }
{
    let mut processes = Items::new(alloc);
    processes.push(bytes(b"h"))?;
    Ok(Neighbor {
        settings: SETTINGS,
        statics: Items::new(alloc),
        processes,
    })
}

// The configuration of both.
fn config(alloc: Global) -> Result<Config, Fail> {
    let mut draft = Draft::new(alloc);
    draft.add_process(process())?;
    draft.add_neighbor(neighbor(alloc)?)?;
    match check(draft) {
        Ok(config) => Ok(config),
        Err(_) => Err("no configuration".into()),
    }
}

fn opened(rt: &HostRuntime) -> Result<Book, Fail> {
    let hasher = RandomState::new(rt)?;
    Ok(Book::open(rt.alloc(), config(rt.alloc())?, hasher)?)
}

// Whether the first helper is to be started.
fn starts(book: &mut Book) -> bool {
    match book.spawn(0, 0) {
        Spawn::Go { inc, run: _run } => inc == 1,
        Spawn::Stopping | Spawn::Absent | Spawn::Running | Spawn::GiveUp => false,
    }
}

// How many replies its first incarnation takes.
fn replies(book: &mut Book) -> usize {
    match book.take(0, 1) {
        Take::Replies(replies) => replies.len(),
        Take::Ended | Take::Nothing => 0,
    }
}

// What becomes of its line.
fn enter(alloc: Global, book: &mut Book, line: &[u8]) -> Verdict {
    let read = ReadLine::new(alloc, Line::Text(line));
    book.line(0, 1, &read)
}

// What is cut for the first neighbour.
fn cut(alloc: Global, book: &mut Book) -> Result<Cut, NoMemory> {
    let mut out = Message::new(alloc, ROOM)?;
    Ok(book.cut(0, &mut out))
}

// How many messages are left for it.
fn drained(alloc: Global, book: &mut Book) -> Result<usize, NoMemory> {
    let mut out = Message::new(alloc, ROOM)?;
    let mut sent = Items::new(alloc);
    let _given = book.drain(0, 4, &mut out, &mut sent)?;
    Ok(sent.len())
}

// That something holds, or else what.
fn see(so: bool, what: &'static str) -> Result<(), Fail> {
    if so { Ok(()) } else { Err(what.into()) }
}

// The first neighbour is told and its session comes up; the helper's line is done.
fn begin(alloc: Global, book: &mut Book) -> Result<(), Fail> {
    see(starts(book), "a start")?;
    see(book.peer(0) == Peer::Is(SETTINGS), "the neighbour")?;
    let caps = Caps::none().with(Family::Ipv4, false);
    see(book.up(0, &SETTINGS, caps) == Up::Ok, "a session")?;
    see(
        enter(alloc, book, ROUTE) == Verdict::Done,
        "a line that is done",
    )
}

// The route is sent, and the end of its family; then the session goes down.
fn send(alloc: Global, book: &mut Book) -> Result<(), Fail> {
    see(
        cut(alloc, book)? == Cut::Message { last: false },
        "the route",
    )?;
    see(drained(alloc, book)? == 1, "the end")?;
    book.refresh(0, Family::Ipv4);
    book.down(0);
    see(cut(alloc, book)? == Cut::Down, "no session")
}

// The helper is told, and is gone.
fn end(alloc: Global, book: &mut Book) -> Result<(), Fail> {
    see(replies(book) == 1, "a reply")?;
    book.deaf(0, 1);
    book.gone(0, 1);
    see(
        enter(alloc, book, ROUTE) == Verdict::Ended,
        "a line that is too late",
    )
}

#[test]
fn a_helpers_route_is_sent_and_its_helper_told(rt: HostRuntime) -> Result<(), Fail> {
    let mut book = opened(&rt)?;
    begin(rt.alloc(), &mut book)?;
    send(rt.alloc(), &mut book)?;
    end(rt.alloc(), &mut book)
}

// A reload that a line asks for is due until it is known that it can't be done.
fn ask(alloc: Global, book: &mut Book) -> Result<(), Fail> {
    see(starts(book), "a start")?;
    see(
        enter(alloc, book, b"reload") == Verdict::Done,
        "a line that is done",
    )?;
    see(book.control() == Control::ReloadDue, "a reload that is due")?;
    book.reload_refused(NotRead::ReadFault);
    see(book.control() == Control::Nothing, "nothing to do")
}

#[test]
fn a_reload_is_due_until_it_is_done_and_a_stop_ends_all(rt: HostRuntime) -> Result<(), Fail> {
    let mut book = opened(&rt)?;
    ask(rt.alloc(), &mut book)?;
    see(book.reload(config(rt.alloc())?) == Reload::Ok, "a reload")?;
    book.stop();
    see(book.control() == Control::Stop, "an end")
}
