//! A helper that is started, replied to, and started again.
use crate::Helper;
use ack_queue::{MAX_QUEUED, MAX_TAKEN, Reply, Shown};
use arrayvec::ArrayVec;
use book_history::{Spawn, Take, Why};
use command_grammar::Command;
use config_model::Process;
use helper_core::Start;
use route_values::{Addr, Key, Prefix};
use std::alloc::Global;
use std::test::Fail;

// The words that start the process.
const RUN: [u8; 13] = *b"/bin/announce";

// A process of this name.
fn process(name: &[u8], respawn: bool) -> Process {
    let mut copied = ArrayVec::new();
    let _ = copied.try_extend_from_slice(name);
    let mut run = ArrayVec::new();
    let _ = run.try_extend_from_slice(RUN.as_slice());
    Process {
        name: copied,
        run,
        json: false,
        respawn,
    }
}

// What an attempt to start a helper gives; None where the daemon ends.
fn spawned(helper: &mut Helper, now: u64, stopping: bool) -> Option<Start> {
    match helper.spawn(now, stopping) {
        Spawn::Stopping => None,
        Spawn::Absent => Some(Start::Absent),
        Spawn::Running => Some(Start::Running),
        Spawn::GiveUp => Some(Start::GiveUp),
        Spawn::Go { inc, run } => {
            if run.as_slice() == RUN.as_slice() {
                Some(Start::Go(inc))
            } else {
                Some(Start::Go(0))
            }
        }
    }
}

// The replies that are taken; Err(true) where no more will come, and Err(false) where none waits.
fn taken(helper: &mut Helper, inc: u64) -> Result<ArrayVec<Reply, MAX_TAKEN>, bool> {
    match helper.take(inc, false) {
        Take::Ended => Err(true),
        Take::Nothing => Err(false),
        Take::Replies(replies) => Ok(replies),
    }
}

// Whether these replies are taken.
fn takes(helper: &mut Helper, inc: u64, wanted: &[Reply]) -> bool {
    match taken(helper, inc) {
        Ok(replies) => replies.as_slice() == wanted,
        Err(_) => false,
    }
}

// Whether no reply waits, and no more will come.
fn is_ended(helper: &mut Helper, inc: u64) -> bool {
    match taken(helper, inc) {
        Ok(_replies) => false,
        Err(ended) => ended,
    }
}

// Refuses a line, if there is room for a reply.
fn refuse(helper: &mut Helper, why: Why) -> bool {
    if helper.is_full() {
        return false;
    }
    helper.refuse(why);
    true
}

// Does a line's command, if there is room for its replies.
fn accept(helper: &mut Helper, command: &Command, routes: &[Shown]) -> bool {
    if !helper.has_room(command, routes) {
        return false;
    }
    helper.accept(command, routes);
    true
}

// A helper that was started once, at 0.
fn running(alloc: Global, respawn: bool) -> Result<Helper, Fail> {
    let mut helper = Helper::new(alloc, Some(process(b"one", respawn)))?;
    if spawned(&mut helper, 0, false) == Some(Start::Go(1)) {
        return Ok(helper);
    }
    Err("the first start is no Go(1)".into())
}

// A route of a neighbour.
fn route() -> Result<Shown, Fail> {
    Ok(Shown {
        peer: Addr::V4(0xc000_0202),
        key: Key {
            prefix: Prefix::new(Addr::V4(0xc633_6400), 24).ok_or("no prefix")?,
            id: 0,
        },
        hop: Addr::V4(0xc000_0201),
        fixed: false,
    })
}

#[test]
fn a_sixth_start_waits_for_a_minute_to_pass(rt: HostRuntime) -> Result<(), Fail> {
    let given_up = (59_999, Start::GiveUp, Start::GiveUp);
    for (sixth, answer, later) in [given_up, (60_000, Start::Go(6), Start::Running)] {
        let mut helper = running(rt.alloc(), true)?;
        for last in 1..5 {
            helper.gone(last);
            assert_eq!(rt;
                spawned(&mut helper, last, false),
                Some(Start::Go(last + 1))
            );
        }
        helper.gone(5);
        assert_eq!(rt; spawned(&mut helper, sixth, false), Some(answer));
        assert_eq!(rt; spawned(&mut helper, 200_000, false), Some(later));
    }
    Ok(())
}

#[test]
fn replies_wait_behind_the_end_of_their_incarnation(rt: HostRuntime) -> Result<(), Fail> {
    let mut helper = running(rt.alloc(), true)?;
    assert!(rt; helper.runs(1) && !helper.is_full());
    assert!(rt; refuse(&mut helper, Why::NoMatch));
    helper.gone(1);
    assert!(rt; !helper.runs(1));
    assert!(rt; takes(&mut helper, 1, [Reply::Error].as_slice()));
    assert!(rt; is_ended(&mut helper, 1));
    assert_eq!(rt; spawned(&mut helper, 1, true), None);
    Ok(())
}

#[test]
fn a_deaf_incarnation_is_told_nothing(rt: HostRuntime) -> Result<(), Fail> {
    let mut helper = running(rt.alloc(), true)?;
    assert!(rt; !is_ended(&mut helper, 1) && is_ended(&mut helper, 2));
    let none: &[Shown] = &[];
    assert!(rt; accept(&mut helper, &Command::Comment, none));
    helper.deaf(1);
    assert!(rt; is_ended(&mut helper, 1));
    assert_eq!(rt; spawned(&mut helper, 1, false), Some(Start::Running));
    Ok(())
}

#[test]
fn lines_are_replied_to_until_replies_are_turned_off(rt: HostRuntime) -> Result<(), Fail> {
    let mut helper = running(rt.alloc(), true)?;
    let none: &[Shown] = &[];
    assert!(rt; accept(&mut helper, &Command::DisableAck, none));
    assert!(rt; refuse(&mut helper, Why::NoMemory));
    assert!(rt; accept(&mut helper, &Command::Comment, none));
    assert!(rt; accept(&mut helper, &Command::EnableAck, none));
    assert!(rt; refuse(&mut helper, Why::NoMemory));
    let replies = [Reply::Done, Reply::Done, Reply::NoMemory];
    assert!(rt; takes(&mut helper, 1, replies.as_slice()));
    Ok(())
}

#[test]
fn no_more_than_1024_replies_wait(rt: HostRuntime) -> Result<(), Fail> {
    let mut helper = running(rt.alloc(), true)?;
    let route = route()?;
    let many = [route; MAX_QUEUED];
    let shown = many.as_slice();
    assert!(rt; !accept(&mut helper, &Command::Comment, shown));
    assert!(rt; accept(&mut helper, &Command::Comment, &shown[1..]));
    assert!(rt; helper.is_full() && !refuse(&mut helper, Why::NoMatch));
    let first = [Reply::Route(route); MAX_TAKEN];
    assert!(rt; takes(&mut helper, 1, first.as_slice()));
    assert!(rt; !helper.is_full());
    Ok(())
}

#[test]
fn a_reload_changes_a_slot_by_the_section_of_its_process(rt: HostRuntime) -> Result<(), Fail> {
    let mut helper = running(rt.alloc(), true)?;
    assert!(rt; refuse(&mut helper, Why::NoMatch));
    helper.reload(Some(process(b"one", true)));
    assert!(rt; helper.runs(1));
    helper.reload(Some(process(b"one", false)));
    assert!(rt; !helper.runs(1) && helper.process().is_some());
    assert!(rt; is_ended(&mut helper, 1));
    assert_eq!(rt; spawned(&mut helper, 0, false), Some(Start::Go(2)));
    helper.reload(None);
    assert_eq!(rt; spawned(&mut helper, 0, false), Some(Start::Absent));
    Ok(())
}
