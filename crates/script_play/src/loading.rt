//! A large input: many routes are announced, half of them are withdrawn, and what came of it is counted.
ghost use Rattle.std.specs.Prelude.{◌≡◌, ◌+◌, ◌*◌, ◌<◌, ◌≤◌, ◌++◌, ℕ, [], length, MatchResult};
ghost use Rattle.outside.specs.Seen.{sink_seen};
ghost use Rattle.arrayvec.specs.ArrayVec.{array_vec_len};
ghost use Rattle.config_model.specs.Sections.{Sections};
ghost use Rattle.book_history.specs.Bounds.{numbers_from};
ghost use Rattle.book_history.specs.Entries.{History};
ghost use Rattle.book_core.specs.Stands.{Stands};
ghost use Rattle.text_history.specs.Adding.{Adding};
ghost use Rattle.script_play.specs.Loads.{AddsAnnounce, AddsWithdraw, AreCut, IsEntered};
ghost use Rattle.script_play.specs.Loads.{announce_line, withdraw_line, load_caps, load_prefix};
ghost use Rattle.script_play.specs.Loads.{max_routes};
ghost use Rattle.script_play.specs.Loading.{Begins, Cuts, EntersAll, IsCounted, IsReplied, IsTold};
ghost use Rattle.script_play.specs.Loading.{LoadBegan, Loads, Tells};

use crate::buffer::Buffer;
use crate::counting::Tally;
use crate::status::Status;
use crate::writing::write;
use answers::NoMemory;
use arrayvec::ArrayVec;
use book_core::{Book, Cut, Spawn, Take};
use command_grammar::ReadLine;
use outside::Sink;
use route_values::{Addr, Caps, Family, Settings};
use std::alloc::Global;
use text_forms::{Line, put_ipv4};

/// How many routes a load has at most.
pub const MAX_LOAD: u32 = 1_000_000;

// The neighbour's settings: 127.0.0.1 from 192.0.2.9, of AS 65002 from AS 65001, in IPv4 alone.
const SETTINGS: Settings = Settings {
    peer: Addr::V4(0x7F00_0001),
    local: Addr::V4(0xC000_0209),
    port: 179,
    local_as: 65_001,
    peer_as: 65_002,
    router_id: 0xC000_0209,
    hold: 180,
    ipv4: true,
    ipv6: false,
    ipv4_send: false,
    ipv6_send: false,
    ipv4_receive: false,
    ipv6_receive: false,
    refresh: true,
    extended: false,
};

// The address of the first prefix, 10.0.0.0.
const FIRST: u32 = 0x0A00_0000;

// How many addresses a prefix has.
const STEP: u32 = 256;

// How many bytes a line has at most.
const LINE_ROOM: usize = 64;

/// Enters a large input into a newly opened book, and writes what was counted of it as nine lines.
///
/// A helper is started, the neighbour's session comes up, so many routes are announced, a line each, and all messages
/// are cut; then each second one is withdrawn, from the first on, and all messages are cut again. The book is to be
/// that of a configuration with the process `h`, and with one neighbour that hears it and has the settings of
/// `load_settings`; of any other one the counts say what came of these events there.
///
/// With each status but `NoMemory` all events were entered. `WriteFault` says that the sink failed, which counted it.
/// Nothing is written before all is counted.
pub fn load<K: Sink>(alloc: Global, book: &mut Book, count: u32, output: &mut K) -> Status
    requires { count ≤ max_routes }
    ensures { (cfg : Sections) → Stands cfg [] book.old → Loads cfg count book.new
        (sink_seen K.taken K.faults output.old) (sink_seen K.taken K.faults output.new) result }
{
    match load_all(alloc, book, count) {
        Ok(text) => tell(&text, output),
        Err(NoMemory) => Status::NoMemory,
    }
}

// Writes the counts.
fn tell<K: Sink>(text: &[u8], output: &mut K) -> Status
    ensures { Tells text.now (sink_seen K.taken K.faults output.old)
        (sink_seen K.taken K.faults output.new) result }
{
    match write(output, text) {
        Ok(()) => Status::Ok,
        Err(_) => Status::WriteFault,
    }
}

// Enters all events, and answers the text of the counts.
fn load_all(alloc: Global, book: &mut Book, count: u32) -> Result<Vec<u8>, NoMemory>
    requires { count ≤ max_routes }
    ensures { (cfg : Sections) → Stands cfg [] book.old → MatchResult result
        (λ text. IsTold cfg count book.new text.items) (λ _. LoadBegan cfg count book.new) }
{
    let mut tally = Tally::new(alloc);
    begin(book);
    enter_all(alloc, book, &mut tally, count)?;
    tally.text(alloc, count)
}

// Starts the helper, and the session comes up.
fn begin(book: &mut Book)
    ensures { (cfg : Sections) → Stands cfg [] book.old → Begins cfg book.new }
{
    end_start(book.spawn(0, 0));
    let _raised = book.up(0, &SETTINGS, caps());
}

// What the session comes up with.
fn caps() -> Caps
    ensures { result ≡ load_caps }
{
    Caps::none().with(Family::Ipv4, false)
}

// Enters what comes behind that.
fn enter_all(alloc: Global, book: &mut Book, tally: &mut Tally, count: u32) -> Result<(), NoMemory>
    requires { count ≤ max_routes }
    ensures { (cfg : Sections) (H : History) → IsCounted cfg H book.old tally.old
        → EntersAll (IsEntered count) cfg H book.new tally.new result }
{
    announce_all(alloc, book, tally, count)?;
    drain(alloc, book, tally)?;
    withdraw_all(alloc, book, tally, (count + 1) / 2)?;
    drain(alloc, book, tally)
}

// The first routes are announced, so many of them.
fn announce_all(
    alloc: Global,
    book: &mut Book,
    tally: &mut Tally,
    count: u32,
) -> Result<(), NoMemory>
    requires { count ≤ max_routes }
    ensures { (cfg : Sections) (H : History) → IsCounted cfg H book.old tally.old
        → EntersAll (λ was now. Adding AddsAnnounce was (numbers_from 0 count) now) cfg H
        book.new tally.new result }
{
    'routes: for i in 0..count {
        announce(alloc, book, tally, i)?;
    }
    Ok(())
}

// The first routes of those with even numbers are withdrawn, so many of them.
fn withdraw_all(
    alloc: Global,
    book: &mut Book,
    tally: &mut Tally,
    count: u32,
) -> Result<(), NoMemory>
    requires { 2 * count ≤ max_routes + 1 }
    ensures { (cfg : Sections) (H : History) → IsCounted cfg H book.old tally.old
        → EntersAll (λ was now. Adding AddsWithdraw was (numbers_from 0 count) now) cfg H
        book.new tally.new result }
{
    'routes: for i in 0..count {
        withdraw(alloc, book, tally, 2 * i)?;
    }
    Ok(())
}

// The route of a number is announced.
fn announce(alloc: Global, book: &mut Book, tally: &mut Tally, i: u32) -> Result<(), NoMemory>
    requires { i < max_routes }
    ensures { (cfg : Sections) (H : History) → IsCounted cfg H book.old tally.old
        → EntersAll (IsReplied (announce_line i)) cfg H book.new tally.new result }
{
    let line = announce_line(i);
    enter(alloc, book, tally, &line)
}

// The route of a number is withdrawn.
fn withdraw(alloc: Global, book: &mut Book, tally: &mut Tally, i: u32) -> Result<(), NoMemory>
    requires { i < max_routes }
    ensures { (cfg : Sections) (H : History) → IsCounted cfg H book.old tally.old
        → EntersAll (IsReplied (withdraw_line i)) cfg H book.new tally.new result }
{
    let line = withdraw_line(i);
    enter(alloc, book, tally, &line)
}

// The line that announces the route of a number.
fn announce_line(i: u32) -> ArrayVec<u8, LINE_ROOM>
    requires { i < max_routes }
    ensures { result.items ≡ announce_line i }
{
    let mut line = ArrayVec::new();
    put(b"announce route ", &mut line);
    put_prefix(i, &mut line);
    put(b" next-hop 192.0.2.1", &mut line);
    line
}

// The line that withdraws it.
fn withdraw_line(i: u32) -> ArrayVec<u8, LINE_ROOM>
    requires { i < max_routes }
    ensures { result.items ≡ withdraw_line i }
{
    let mut line = ArrayVec::new();
    put(b"withdraw route ", &mut line);
    put_prefix(i, &mut line);
    line
}

// Puts the prefix of a number behind what a line has.
fn put_prefix(i: u32, line: &mut ArrayVec<u8, LINE_ROOM>)
    requires few { i < max_routes }
    requires room { array_vec_len line.old + 18 ≤ LINE_ROOM }
    ensures text { line.new.items ≡ line.old.items ++ load_prefix i }
    ensures short { array_vec_len line.new ≤ array_vec_len line.old + 18 }
{
    put_ipv4(FIRST + STEP * i, line);
    put(b"/24", line);
}

// Puts bytes for which there is room.
fn put(piece: &[u8], line: &mut ArrayVec<u8, LINE_ROOM>)
    requires { array_vec_len line.old + length piece.now ≤ LINE_ROOM }
    ensures text { line.new.items ≡ line.old.items ++ piece.now }
    ensures len { array_vec_len line.new ≡ array_vec_len line.old + length piece.now }
{
    let _ = line.try_extend_from_slice(piece);
}

// Enters a line of the helper, takes its reply, and counts it.
fn enter(alloc: Global, book: &mut Book, tally: &mut Tally, line: &[u8]) -> Result<(), NoMemory>
    ensures { (cfg : Sections) (H : History) → IsCounted cfg H book.old tally.old
        → EntersAll (IsReplied line.now) cfg H book.new tally.new result }
{
    let read = ReadLine::new(alloc, Line::Text(line));
    let given = book.line(0, 1, &read);
    end_take(book.take(0, 1));
    tally.line(given)
}

// Nothing more is asked of how a helper was started.
fn end_start(given: Spawn) {
    match given {
        Spawn::Stopping | Spawn::Absent | Spawn::Running | Spawn::GiveUp => {}
        Spawn::Go { inc: _, run: _run } => {}
    }
}

// Nothing more is asked of replies.
fn end_take(given: Take) {
    match given {
        Take::Ended | Take::Nothing => {}
        Take::Replies(_replies) => {}
    }
}

// Messages are cut until none comes.
fn drain(alloc: Global, book: &mut Book, tally: &mut Tally) -> Result<(), NoMemory>
    ensures { (cfg : Sections) (H : History) → IsCounted cfg H book.old tally.old
        → EntersAll AreCut cfg H book.new tally.new result }
{
    let mut buffer = Buffer::new(alloc)?;
    'cuts: for _count in 0..u64::MAX {
        let came = cut(alloc, book, tally, &mut buffer)?;
        if !came {
            return Ok(());
        }
    }
    Err(NoMemory)
}

// Cuts once into a buffer, and counts a message. Whether one came.
fn cut(
    alloc: Global,
    book: &mut Book,
    tally: &mut Tally,
    buffer: &mut Buffer,
) -> Result<bool, NoMemory>
    ensures { (cfg : Sections) (H : History) → IsCounted cfg H book.old tally.old
        → Cuts cfg H book.new tally.new result }
{
    match buffer.cut(book, 0) {
        Cut::Message { .. } => {
            tally.message(alloc, buffer.bytes())?;
            Ok(true)
        }
        Cut::Down | Cut::Reset { .. } | Cut::Nothing => Ok(false),
    }
}
