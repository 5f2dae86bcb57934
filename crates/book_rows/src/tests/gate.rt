//! The book behind its gate, which two threads enter.
ghost use Rattle.std.specs.Prelude.{◌≡◌, IfOk};

use super::files::ONE;
use super::stage::{HELPER, read};
use super::told::{of_count, of_spawn};
use book_core::{Book, LineCall, NoMemory, SpawnCall, TakeCall};
use book_gate::{Gate, Opened, Pass};
use command_grammar::ReadLine;
use config_model::Config;
use std::alloc::Global;
use std::hash::RandomState;
use std::snapshot::Snapshot;
use std::sync::Wait;
use std::test::Fail;
use std::thread;
use std::thread::Threads;
use text_forms::Line;

// How often each thread says its line.
const TIMES: u32 = 500;

// A gate round the book of a configuration.
fn opened(alloc: Global, config: Config, hasher: RandomState) -> Result<Opened<Book>, NoMemory>
    ensures { IfOk result (λ opened. opened.pass.gate ≡ opened.gate) }
{
    let start = Snapshot::of(&config);
    let book = Book::open(alloc, config, hasher)?;
    let Ok(opened) = Gate::open(alloc, book, start) else {
        return Err(NoMemory);
    };
    Ok(opened)
}

// The first incarnation says a comment, by calls of one pass, which comes back.
fn say<R: Wait>(rt: &R, alloc: Global, gate: &Gate<Book>, mut pass: Pass<Book>) -> Pass<Book>
    requires { pass.gate ≡ gate.now }
    ensures { result.gate ≡ gate.now }
{
    let read = ReadLine::new(alloc, Line::Text(b"# x"));
    'times: for _ in 0..TIMES {
        gate.enter(
            rt,
            &mut pass,
            LineCall {
                h: HELPER,
                inc: 1,
                read: &read,
            },
        );
    }
    pass
}

// Two threads say lines, each by a pass of its own.
fn say_both<R: Threads + Wait + Sync>(
    rt: &R,
    alloc: Global,
    gate: &Gate<Book>,
    one: Pass<Book>,
    two: Pass<Book>,
) -> (Pass<Book>, Pass<Book>)
    requires one { one.gate ≡ gate.now }
    requires two { two.gate ≡ gate.now }
    ensures one { result.0.gate ≡ gate.now }
    ensures two { result.1.gate ≡ gate.now }
{
    thread::join(
        rt,
        move || -> Pass<Book>
            requires { one.gate ≡ gate.now }
            ensures { result.gate ≡ one.gate }
        { say(rt, alloc, gate, one) },
        move || -> Pass<Book>
            requires { two.gate ≡ gate.now }
            ensures { result.gate ≡ two.gate }
        { say(rt, alloc, gate, two) },
    )
}

// Two threads say lines with passes that are split off this one and joined into it.
fn say_beside<R: Threads + Wait + Sync>(
    rt: &R,
    alloc: Global,
    gate: &Gate<Book>,
    pass: &mut Pass<Book>,
) -> Result<(), NoMemory>
    requires { pass.old.gate ≡ gate.now }
    ensures { pass.new.gate ≡ gate.now }
{
    let one = gate.split(pass)?;
    let two = gate.split(pass)?;
    let (one, two) = say_both(rt, alloc, gate, one, two);
    gate.join(pass, one);
    gate.join(pass, two);
    Ok(())
}

// What the first pass is told of the replies, one time after the other.
fn takes<R: Wait>(
    rt: &R,
    alloc: Global,
    gate: &Gate<Book>,
    pass: &mut Pass<Book>,
) -> Result<(), Fail>
    requires { pass.old.gate ≡ gate.now }
{
    'times: for time in 0..17 {
        let take = gate.enter(rt, pass, TakeCall { h: HELPER, inc: 1 });
        let wanted = match time {
            15 => "40 done",
            16 => "nothing",
            _ => "64 done",
        };
        if of_count(alloc, take)?.as_str() != wanted {
            return Err("other replies".into());
        }
    }
    Ok(())
}

#[test]
fn lines_of_two_threads_are_all_entered(rt: HostRuntime) -> Result<(), Fail> {
    let hasher = RandomState::new(&rt)?;
    let config = read(rt.alloc(), ONE)?;
    let Opened { gate, mut pass } = opened(rt.alloc(), config, hasher)?;
    let spawn = gate.enter(&rt, &mut pass, SpawnCall { h: HELPER, now: 0 });
    assert_eq!(rt; of_spawn(rt.alloc(), spawn)?.as_str(), "go 1");
    say_beside(&rt, rt.alloc(), &gate, &mut pass)?;
    takes(&rt, rt.alloc(), &gate, &mut pass)
}
