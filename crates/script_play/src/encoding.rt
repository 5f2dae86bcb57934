//! A helper's lines, and the messages that they leave.
ghost use Rattle.std.specs.Prelude.{◌≡◌, ◌<◌, ◌≤◌, [], List, IfOk, length};
ghost use Rattle.outside.specs.Seen.{sink_seen, source_seen};
ghost use Rattle.line_cutter.specs.Cutting.{fresh};
ghost use Rattle.config_model.specs.declared.sections.Neighbor.{Neighbor};
ghost use Rattle.config_model.specs.Limits.{max_peers};
ghost use Rattle.config_model.specs.Sections.{Sections};
ghost use Rattle.book_history.specs.Entries.{History};
ghost use Rattle.book_history.specs.Entries.Entry.{MessageCut};
ghost use Rattle.answer_texts.specs.Shown.{encoded};
ghost use Rattle.text_history.specs.Encodes.{AddsCuts, caps_sent, numbered};
ghost use Rattle.text_history.specs.Plays.{IsDrain};
ghost use Rattle.script_play.specs.Player.{PlayerStands};
ghost use Rattle.script_play.specs.Encoding.{AddsAll, CutsOnce, Encodes, Raises, Spawns, Started};
ghost use Rattle.script_play.specs.Encoding.{WorksOff, WritesText, settings_of};
ghost use Rattle.script_play.specs.Streams.{status_by};

use crate::answering::answer_all;
use crate::halt::Halt;
use crate::player::Player;
use crate::status::Status;
use crate::writing::write;
use answers::NoMemory;
use book_core::{Cut, Spawn};
use config_model::Config;
use line_cutter::LineCutter;
use outside::{Sink, Source};
use route_values::{Caps, Family, Settings};
use std::alloc::Global;
use text_history::encodings_leave_tables;

/// Encodes a helper's lines over a newly opened book: starts helper 0, brings each neighbour's session up, and answers
/// the lines of the input. At its end the messages are cut that the lines leave, for one neighbour after the other.
///
/// Each session carries the families of its neighbour's settings, with path identifiers where these send them. What the
/// lines are answered is written as the helper reads it, and each message as a script prints it: before more is read.
/// What no line feed ends is no line. With `Ok` each neighbour's messages leave just the table that the lines leave at
/// it. With another status the output is a front part of one that belongs to what was read.
pub fn encode<S: Source, K: Sink>(
    alloc: Global,
    config: Config,
    input: &mut S,
    output: &mut K,
) -> Status
    ensures { Encodes config (source_seen S.given S.left S.ended S.faults input.old)
        (source_seen S.given S.left S.ended S.faults input.new)
        (sink_seen K.taken K.faults output.old) (sink_seen K.taken K.faults output.new) result }
{
    match encode_all(alloc, config, input, output) {
        Ok(()) => Status::Ok,
        Err(halt) => halt.status(),
    }
}

// Opens the book and encodes the whole input.
fn encode_all<S: Source, K: Sink>(
    alloc: Global,
    config: Config,
    input: &mut S,
    output: &mut K,
) -> Result<(), Halt>
    ensures { Encodes config (source_seen S.given S.left S.ended S.faults input.old)
        (source_seen S.given S.left S.ended S.faults input.new)
        (sink_seen K.taken K.faults output.old) (sink_seen K.taken K.faults output.new)
        (status_by result) }
{
    let settings = settings_of(alloc, &config)?;
    let mut player = Player::new(alloc, config)?;
    let mut cutter = LineCutter::new(alloc)?;
    encode_with(&mut player, &mut cutter, &settings, input, output)
}

// The settings of the neighbours, in their slots' order.
fn settings_of(alloc: Global, config: &Config) -> Result<Vec<Settings>, NoMemory>
    ensures settings { IfOk result (λ all. all.items ≡ settings_of config.now.neighbors) }
    ensures few { IfOk result (λ all. length all.items ≤ max_peers) }
{
    let mut all = Vec::new(alloc);
    'neighbors: for neighbor in config.neighbors() {
        all.push(neighbor.settings)?;
    }
    Ok(all)
}

// Encodes the whole input over a book that was opened.
fn encode_with<S: Source, K: Sink>(
    player: &mut Player,
    cutter: &mut LineCutter,
    settings: &[Settings],
    input: &mut S,
    output: &mut K,
) -> Result<(), Halt>
    requires few { length settings.now ≤ max_peers }
    requires fresh { cutter.old ≡ fresh }
    ensures { (cfg : Sections) → PlayerStands cfg [] player.old
        → settings.now ≡ settings_of cfg.neighbors
        → Encodes cfg (source_seen S.given S.left S.ended S.faults input.old)
        (source_seen S.given S.left S.ended S.faults input.new)
        (sink_seen K.taken K.faults output.old) (sink_seen K.taken K.faults output.new)
        (status_by result) }
{
    // For the proof: what the messages leave.
    encodings_leave_tables();
    start(player, settings);
    answer_all(player, cutter, input, output)?;
    cut_all(player, settings.len(), output)
}

// Starts helper 0, and brings the sessions up.
fn start(player: &mut Player, settings: &[Settings])
    requires { length settings.now ≤ max_peers }
    ensures { (cfg : Sections) (neighbors : List Neighbor) → PlayerStands cfg [] player.old
        → settings.now ≡ settings_of neighbors → Started cfg neighbors player.new }
{
    spawn(player);
    'slots: for n in 0..settings.len() {
        raise(player, n, settings[n]);
    }
}

// Starts helper 0.
fn spawn(player: &mut Player)
    ensures { (cfg : Sections) → PlayerStands cfg [] player.old → Spawns cfg player.new }
{
    match player.book.spawn(0, 0) {
        Spawn::Stopping | Spawn::Absent | Spawn::Running | Spawn::GiveUp => {}
        Spawn::Go {
            inc: _inc,
            run: _run,
        } => {}
    }
}

// Brings a session up.
fn raise(player: &mut Player, n: usize, settings: Settings)
    requires { n < max_peers }
    ensures { (cfg : Sections) (H : History) → PlayerStands cfg H player.old
        → Raises cfg H n settings player.new }
{
    player.book.up(n, &settings, caps_sent(&settings));
}

// What a session is brought up with that has these settings.
fn caps_sent(settings: &Settings) -> Caps
    ensures { result ≡ caps_sent settings.now }
{
    let mut caps = Caps::none();
    if settings.ipv4 {
        caps = caps.with(Family::Ipv4, settings.ipv4_send);
    }
    if settings.ipv6 {
        caps = caps.with(Family::Ipv6, settings.ipv6_send);
    }
    caps
}

// Makes and writes the messages of the first slots, in their order.
fn cut_all<K: Sink>(player: &mut Player, count: usize, output: &mut K) -> Result<(), Halt>
    requires { count ≤ max_peers }
    ensures { (cfg : Sections) (H : History) (neighbors : List Neighbor)
        → PlayerStands cfg H player.old → length neighbors ≡ count
        → WorksOff AddsCuts (numbered 0 neighbors) cfg H player.new
        (sink_seen K.taken K.faults output.old) (sink_seen K.taken K.faults output.new) result }
{
    'slots: for n in 0..count {
        cut_slot(player, n, output)?;
    }
    Ok(())
}

// Makes and writes the messages of a slot until none comes. They end, as each batch does; memory is told to be wanting
// after more of them than 64 bits count.
fn cut_slot<K: Sink>(player: &mut Player, n: usize, output: &mut K) -> Result<(), Halt>
    requires { n < max_peers }
    ensures { (cfg : Sections) (H : History) → PlayerStands cfg H player.old
        → AddsAll (IsDrain n) cfg H player.new
        (sink_seen K.taken K.faults output.old) (sink_seen K.taken K.faults output.new) result }
{
    'cuts: for _ in 0..u64::MAX {
        if !cut_once(player, n, output)? {
            return Ok(());
        }
    }
    Err(Halt::Memory)
}

// Makes a slot's next message and writes it. Answers whether one came.
fn cut_once<K: Sink>(player: &mut Player, n: usize, output: &mut K) -> Result<bool, Halt>
    requires { n < max_peers }
    ensures { (cfg : Sections) (H : History) → PlayerStands cfg H player.old
        → CutsOnce n cfg H player.new
        (sink_seen K.taken K.faults output.old) (sink_seen K.taken K.faults output.new) result }
{
    let given = player.cut_next(n);
    write_cut(player, n, given, output)?;
    Ok(matches!(given, Cut::Message { .. }))
}

// Writes a message that was cut, or the code that comes in its place.
fn write_cut<K: Sink>(player: &mut Player, n: usize, given: Cut, output: &mut K) -> Result<(), Halt>
    ensures writes { WritesText (encoded (MessageCut n player.old.message.bytes given))
        (sink_seen K.taken K.faults output.old) (sink_seen K.taken K.faults output.new) result }
    ensures stands { (cfg : Sections) (H : History) → PlayerStands cfg H player.old
        → PlayerStands cfg H player.new }
{
    match given {
        Cut::Down | Cut::Nothing => Ok(()),
        Cut::Reset { .. } | Cut::Message { .. } => {
            player.put_cut(n, given)?;
            write(output, &player.text)
        }
    }
}
