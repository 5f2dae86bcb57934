//! A process that is started, ends and is started again.
ghost use Rattle.std.specs.Prelude.{◌≡◌, [], ◌∷◌, ◌++◌};
ghost use Rattle.std.specs.Bool.{OnTrue, OnFalse};
ghost use Rattle.helper_core.specs.Lending.{with_replies};

use crate::{Reply, Slot, Start};
use std::alloc::Global;
use std::test::Fail;

// A slot whose process was started once, at 0.
fn running(alloc: Global, respawn: bool) -> Result<Slot, Fail> {
    let mut slot = Slot::new(alloc)?;
    slot.place(respawn);
    if slot.start(0) == Start::Go(1) {
        return Ok(slot);
    }
    Err("the first start is no Go(1)".into())
}

// Puts a reply into the queue that a slot lends, and changes nothing else.
fn put(slot: &mut Slot, reply: Reply) -> bool
    ensures last { OnTrue result (slot.new ≡ with_replies slot.old
        (slot.old.replies ++ reply ∷ [])) }
    ensures full { OnFalse result (slot.new ≡ slot.old) }
{
    slot.queue().put(reply)
}

#[test]
fn a_process_that_ends_five_times_in_a_minute_is_given_up(rt: HostRuntime) -> Result<(), Fail> {
    for (sixth, answer) in [(59_999, Start::GiveUp), (60_000, Start::Go(6))] {
        let mut slot = running(rt.alloc(), true)?;
        for inc in 1..5 {
            slot.gone(inc);
            assert_eq!(rt; slot.start(inc), Start::Go(inc + 1));
        }
        slot.gone(5);
        assert_eq!(rt; slot.start(sixth), answer);
    }
    Ok(())
}

#[test]
fn a_process_that_may_run_once_is_given_up_however_late(rt: HostRuntime) -> Result<(), Fail> {
    let mut slot = running(rt.alloc(), false)?;
    slot.gone(1);
    assert_eq!(rt; slot.start(100_000), Start::GiveUp);
    assert_eq!(rt; slot.start(200_000), Start::GiveUp);
    // Another process begins anew, but for its number.
    slot.place(false);
    assert_eq!(rt; slot.start(200_001), Start::Go(2));
    Ok(())
}

#[test]
fn a_slot_starts_one_incarnation_at_a_time(rt: HostRuntime) -> Result<(), Fail> {
    let mut slot = running(rt.alloc(), true)?;
    assert_eq!(rt; slot.start(1), Start::Running);
    slot.gone(2);
    assert_eq!(rt; slot.start(1), Start::Running);
    slot.deaf(1);
    assert!(rt; !slot.runs(1));
    assert_eq!(rt; slot.start(1), Start::Running);
    slot.gone(1);
    assert_eq!(rt; slot.start(1), Start::Go(2));
    assert!(rt; slot.runs(2) && !slot.runs(1));
    slot.remove();
    assert_eq!(rt; slot.start(1), Start::Absent);
    assert_eq!(rt; slot.last(), 2);
    Ok(())
}

#[test]
fn replies_wait_behind_the_end_of_their_incarnation(rt: HostRuntime) -> Result<(), Fail> {
    let mut slot = running(rt.alloc(), true)?;
    assert!(rt; put(&mut slot, Reply::Done));
    slot.gone(1);
    assert_eq!(rt; slot.queued(), 1);
    assert!(rt; slot.queue().take().as_slice() == [Reply::Done].as_slice());
    assert_eq!(rt; slot.queued(), 0);
    Ok(())
}

#[test]
fn no_reply_waits_for_a_deaf_incarnation_or_one_that_begins(rt: HostRuntime) -> Result<(), Fail> {
    let mut slot = running(rt.alloc(), true)?;
    assert!(rt; put(&mut slot, Reply::Done));
    slot.deaf(2);
    assert_eq!(rt; slot.queued(), 1);
    slot.deaf(1);
    assert_eq!(rt; slot.queued(), 0);
    assert!(rt; put(&mut slot, Reply::Error));
    slot.gone(1);
    assert_eq!(rt; slot.start(0), Start::Go(2));
    assert_eq!(rt; slot.queued(), 0);
    Ok(())
}
