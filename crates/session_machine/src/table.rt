//! The table of a session.
ghost use Rattle.std.specs.Prelude.{◌≡◌, ◌≤◌, [], ◌∷◌};
ghost use Rattle.session_machine.specs.Table.{table, ended, refused_by, out_of_order};
ghost use Rattle.arrayvec.specs.ArrayVec.{array_vec_len};

use crate::action::{Action, Actions};
use crate::event::Event::{self, *};
use crate::state::State::{self, *};
use route_values::Settings;
use session_codec::codes::{HOLD_TIMER_EXPIRED, STATE_MACHINE_ERROR, UNSPECIFIC};
use session_codec::{Refusal, negotiate};

/// What is to be done at an event, and the state behind it.
#[derive(Debug, Drop)]
pub struct Step {
    pub actions: Actions,
    pub state: State,
}

/// The row of the table for a state and an event.
pub fn row(own: &Settings, state: &State, event: Event<'_>) -> Step
    ensures actions { result.actions.items ≡ (table own.now state.now event.entry).actions }
    ensures state { result.state ≡ (table own.now state.now event.entry).state }
{
    match (state, event) {
        (Idle, Connected) => just(Action::SendOpen, &OpenSent),
        (
            Idle,
            Open(_)
            | Update(_)
            | Notified
            | Keepalive
            | Refresh(_)
            | Bad(_)
            | HoldExpired
            | KeepaliveDue
            | Lost
            | Stop(..),
        ) => nothing(&Idle),
        (OpenSent, Open(Ok(theirs))) => {
            just(Action::SendKeepalive, &OpenConfirm(negotiate(own, &theirs)))
        }
        (OpenSent, Keepalive | Update(_) | Refresh(_)) => out_of_order(state),
        (OpenSent, KeepaliveDue | Connected) => nothing(state),
        (OpenConfirm(agreed), Keepalive) => just(Action::Up(*agreed), &Established(*agreed)),
        (OpenConfirm(_), Open(Ok(_)) | Update(_) | Refresh(_)) => out_of_order(state),
        (OpenConfirm(_), KeepaliveDue) => just(Action::SendKeepalive, state),
        (Established(_), Keepalive) => nothing(state),
        (Established(_), Update(_)) => just(Action::Heard, state),
        (Established(agreed), Refresh(Some(family))) if agreed.to_peer.has(family) => {
            just(Action::Refresh(family), state)
        }
        (Established(_), Refresh(_)) => nothing(state),
        (Established(_), Open(Ok(_))) => out_of_order(state),
        (Established(_), KeepaliveDue) => just(Action::SendKeepalive, state),
        (OpenConfirm(_) | Established(_), Connected) => nothing(state),
        // In each state but Idle.
        (_, Open(Err(refusal)) | Bad(refusal)) => refused(state, refusal),
        (_, HoldExpired) => refused(state, Refusal::new(HOLD_TIMER_EXPIRED, UNSPECIFIC, &[])),
        (_, Stop(code, sub)) => refused(state, Refusal::new(code, sub, &[])),
        (_, Notified | Lost) => ended(state),
    }
}

// Nothing is to be done.
fn nothing(state: &State) -> Step
    ensures actions { result.actions.items ≡ [] }
    ensures state { result.state ≡ state.now }
{
    Step {
        actions: Actions::new(),
        state: *state,
    }
}

// One thing is to be done.
fn just(action: Action, state: &State) -> Step
    ensures actions { result.actions.items ≡ action ∷ [] }
    ensures state { result.state ≡ state.now }
{
    let mut step = nothing(state);
    step.actions.push(action);
    step
}

// A message came that the state doesn't have (RFC 4271, section 6.6).
fn out_of_order(state: &State) -> Step
    ensures actions { result.actions.items ≡ (refused_by state.now out_of_order).actions }
    ensures state { result.state ≡ (refused_by state.now out_of_order).state }
{
    refused(state, Refusal::new(STATE_MACHINE_ERROR, UNSPECIFIC, &[]))
}

// The session ends, and the neighbour is told why.
fn refused(state: &State, refusal: Refusal) -> Step
    ensures actions { result.actions.items ≡ (refused_by state.now refusal).actions }
    ensures state { result.state ≡ (refused_by state.now refusal).state }
{
    let mut actions = Actions::new();
    actions.push(Action::Notify(refusal));
    end(actions, state)
}

// The session ends.
fn ended(state: &State) -> Step
    ensures actions { result.actions.items ≡ (ended state.now []).actions }
    ensures state { result.state ≡ (ended state.now []).state }
{
    end(Actions::new(), state)
}

// The session ends behind these actions: one that stood stands no more, and the connection is closed.
fn end(mut actions: Actions, state: &State) -> Step
    requires { array_vec_len actions ≤ 2 }
    ensures actions { result.actions.items ≡ (ended state.now actions.items).actions }
    ensures state { result.state ≡ (ended state.now actions.items).state }
{
    if let Established(_) = state {
        actions.push(Action::Down);
    }
    actions.push(Action::Close);
    Step {
        actions,
        state: Idle,
    }
}
