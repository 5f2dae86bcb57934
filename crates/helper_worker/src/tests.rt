//! What no clause says: that the jobs end with the daemon, and what becomes of a helper whose pipes or start fail.
ghost use Rattle.std.specs.Prelude.{◌≡◌, ◌+◌, [], IfOk};
ghost use Rattle.book_gate.specs.Names.{child_name};
ghost use Rattle.helper_worker.specs.Handing.{writer_of};
ghost use Rattle.pass_entries.specs.Making.{own};

use crate::{Apart, Pair, Reader, Replier, make_pair, take_apart};
use arrayvec::ArrayVec;
use book_core::{Book, ControlCall};
use book_gate::{Gate, GateName, Opened, Pass};
use book_history::Control;
use config_model::{Config, Draft, Process, check};
use outside::{MemoryPause, MemorySpawner, Pause, ReadyChild, Script, Spawner, StillClock};
use std::alloc::Global;
use std::hash::RandomState;
use std::marker::Brand;
use std::snapshot::Snapshot;
use std::sync::Wait;
use std::test::Fail;
use std::thread;
use std::thread::Threads;

// What a helper writes that ends the daemon, and then begins a line that it doesn't end.
const LAST: &[u8] = b"reload\nfoo\nshutdown\nfoo";

fn bytes<const N: usize>(text: &[u8]) -> ArrayVec<u8, N> {
    let mut bytes = ArrayVec::new();
    let _ = bytes.try_extend_from_slice(text);
    bytes
}

// The configuration of one helper.
fn config(alloc: Global) -> Result<Config, Fail> {
    let mut draft = Draft::new(alloc);
    draft.add_process(Process {
        name: bytes(b"h"),
        run: bytes(b"/bin/cat"),
        json: false,
        respawn: true,
    })?;
    match check(draft) {
        Ok(config) => Ok(config),
        Err(_) => Err("no configuration".into()),
    }
}

// A gate round the book of that configuration.
fn opened(rt: &HostRuntime) -> Result<Opened<Book>, Fail>
    ensures gate { IfOk result (λ opened. opened.pass.gate ≡ opened.gate) }
    ensures first { IfOk result (λ opened. (opened.pass.name ≡ []) × (opened.pass.next ≡ 0)) }
{
    let config = config(rt.alloc())?;
    let start = Snapshot::of(&config);
    let book = Book::open(rt.alloc(), config, RandomState::new(rt)?)?;
    match Gate::open(rt.alloc(), book, start) {
        Ok(opened) => Ok(opened),
        Err(_) => Err("no gate".into()),
    }
}

// A new pass.
fn split(gate: &Gate<Book>, pass: &mut Pass<Book>) -> Result<Pass<Book>, Fail>
    requires { pass.old.gate ≡ gate.now }
    ensures gate { pass.new.gate ≡ gate.now }
    ensures name { pass.new.name ≡ pass.old.name }
    ensures next { IfOk result (λ new. pass.new.next ≡ pass.old.next + 1) }
    ensures new { IfOk result (λ new. (new.gate ≡ gate.now) × (own new ≡ [])
        × (new.name ≡ child_name pass.old.name pass.old.next)) }
{
    match gate.split(pass) {
        Ok(new) => Ok(new),
        Err(_) => Err("no pass".into()),
    }
}

// Runs both jobs beside each other.
fn run_both<'g, R: Threads + Wait + Sync, S: Spawner + Send, P: Pause + Send, N: GateName + Send>(
    rt: &R,
    reader: &mut Reader<'g, S, StillClock, P, N>,
    replier: &mut Replier<'g, S, P, N>,
) {
    thread::join(rt, || reader.run(rt), || replier.run(rt));
}

// Runs both jobs of the first slot, or calls them off, and gives the spawner back.
fn work<
    R: Threads + Wait + Sync,
    S: Spawner + Drop + Send,
    P: Pause + Drop + Send,
    N: GateName + Send,
>(
    rt: &R,
    alloc: Global,
    gate: &Gate<Book>,
    spawner: S,
    pause: P,
    reading: Pass<Book>,
    writing: Pass<Book>,
    runs: bool,
) -> Result<S, Fail>
    requires named { gate.now ≡ N.gate }
    requires reading { reading.gate ≡ gate.now }
    requires writing { writing.gate ≡ gate.now }
    requires name { writing.name ≡ writer_of 0 }
    requires new { own writing ≡ [] }
{
    let pair: Result<Pair<'_, S, StillClock, P, N>, Apart<S>> = make_pair(
        alloc, gate, 0, spawner, StillClock, pause, reading, writing,
    );
    let Ok(pair) = pair else {
        return Err("no jobs".into());
    };
    let Pair {
        mut reader,
        mut replier,
    } = pair;
    if runs {
        run_both(rt, &mut reader, &mut replier);
    } else {
        replier.call_off(rt);
        reader.call_off(rt);
    }
    Ok(take_apart(reader, replier).spawner)
}

// What is left of both jobs of the first slot, and whether the daemon is then to end.
fn worked<R: Threads + Wait + Sync, S: Spawner + Drop + Send, P: Pause + Drop + Send>(
    rt: &R,
    alloc: Global,
    opened: Opened<Book>,
    spawner: S,
    pause: P,
    runs: bool,
) -> Result<(S, bool), Fail>
    requires gate { opened.pass.gate ≡ opened.gate }
    requires name { opened.pass.name ≡ [] }
    requires next { opened.pass.next ≡ 0 }
{
    let Opened { gate, mut pass } = opened;
    let reading = split(&gate, &mut pass)?;
    let writing = split(&gate, &mut pass)?;
    let spawner = work::<R, S, P, Brand>(rt, alloc, &gate, spawner, pause, reading, writing, runs)?;
    let ends = matches!(gate.enter(rt, &mut pass, ControlCall), Control::Stop);
    Ok((spawner, ends))
}

// A spawner whose first child takes by a script, and whose starts of these numbers fail.
fn spawner<'a>(
    alloc: Global,
    script: Script<'a>,
    failing: &'a [u64],
) -> Result<MemorySpawner<'a>, Fail> {
    let mut ready = Vec::new(alloc);
    ready.push(ReadyChild::new(alloc, LAST, 4_096)?.taking(script))?;
    ready.push(ReadyChild::new(alloc, LAST, 4_096)?)?;
    Ok(MemorySpawner::new(alloc, ready, 4, failing)?)
}

// How many starts were asked for and how many of them failed, how many children have ended, and how often the pipes
// and starts failed.
fn counts(spawner: &MemorySpawner<'_>) -> (usize, Option<u64>, usize, u64) {
    let asked = spawner.asked().map_or(0, |asked| asked.len());
    let ended = spawner.ended().map_or(0, |ended| ended.len());
    (asked, spawner.failed(), ended, spawner.faults())
}

// Whether the last child that has ended took this.
fn took(spawner: &MemorySpawner<'_>, text: &[u8]) -> bool {
    let Some(ended) = spawner.ended() else {
        return false;
    };
    let Some(pipes) = ended.last() else {
        return false;
    };
    match pipes.sink.bytes() {
        Some(bytes) => bytes == text,
        None => false,
    }
}

#[test]
fn a_helper_is_heard_and_answered_until_it_ends_the_daemon(rt: HostRuntime) -> Result<(), Fail> {
    let made = spawner(rt.alloc(), Script::new(), &[])?;
    let (left, ends) = worked(
        &rt,
        rt.alloc(),
        opened(&rt)?,
        made,
        MemoryPause::new(&[]),
        true,
    )?;
    assert_eq!(rt; counts(&left), (1, Some(0), 1, 0));
    assert!(rt; took(&left, b"done\nerror\ndone\n"));
    assert!(rt; ends);
    Ok(())
}

#[test]
fn a_helper_that_is_not_started_is_asked_for_again(rt: HostRuntime) -> Result<(), Fail> {
    let made = spawner(rt.alloc(), Script::new(), &[0])?;
    let (left, ends) = worked(
        &rt,
        rt.alloc(),
        opened(&rt)?,
        made,
        MemoryPause::new(&[]),
        true,
    )?;
    assert_eq!(rt; counts(&left), (2, Some(1), 1, 1));
    assert!(rt; ends);
    Ok(())
}

#[test]
fn a_helper_that_cannot_be_answered_is_given_back(rt: HostRuntime) -> Result<(), Fail> {
    let script = Script {
        failing: &[0],
        ..Script::new()
    };
    let made = spawner(rt.alloc(), script, &[])?;
    let (left, ends) = worked(
        &rt,
        rt.alloc(),
        opened(&rt)?,
        made,
        MemoryPause::new(&[]),
        true,
    )?;
    assert_eq!(rt; left.faults(), 1);
    assert!(rt; ends);
    Ok(())
}

#[test]
fn jobs_that_are_called_off_end_the_daemon(rt: HostRuntime) -> Result<(), Fail> {
    let made = spawner(rt.alloc(), Script::new(), &[])?;
    let (left, ends) = worked(
        &rt,
        rt.alloc(),
        opened(&rt)?,
        made,
        MemoryPause::new(&[]),
        false,
    )?;
    assert_eq!(rt; counts(&left), (0, Some(0), 0, 0));
    assert!(rt; ends);
    Ok(())
}
