//! The gate: a ticket lock round the state.
ghost use Rattle.std.specs.Prelude.{◌≡◌, ◌↔◌, ◌++◌, ◌∷◌, [], None, Some, IfOk, IfErr, IsErr, OnErr};
ghost use Rattle.std.specs.Prelude.{All, Contains};
ghost use Rattle.book_gate.specs.Views.{at_rest, with_entry};
ghost use Rattle.book_gate.specs.Steps.{Counts, GetsTurn};
ghost use Rattle.book_gate.specs.Known.{first_known};
ghost use Rattle.book_gate.specs.Calls.{Enters, IsSplit, IsJoin, Learns, Stands};
ghost use Rattle.book_gate.specs.Turns.{IsSameSeat, IsWaiting, IsReady};

use crate::glimpse::Glimpse;
use crate::held::{Call, Held};
use crate::pass::Pass;
use crate::steps::{Count, Family, Look, Lore, Review, Said, Serve, Take};
use crate::view::{Board, Place};
use answers::NoMemory;
use atomic_table::{Refused, Table};
use std::alloc::{AllocFailed, Global};
use std::marker::{Brand, Model};
use std::snapshot::Snapshot;
use std::sync::Wait;

// The word that counts the tickets taken.
const TICKET: usize = 0;

// The word that counts the turns served.
const SERVING: usize = 1;

// The word that counts the entries.
const COUNT: usize = 2;

// The room of the first pass: how many may come from it, so that there are never more than 2^62.
const FIRST_ROOM: u64 = 4_611_686_018_427_387_903;

// A new pass has this part of the room of the pass that it was split off.
const SHARE: u64 = 65_536;

/// The state, to which no thread comes but by a call. Contracts see which gate it is.
#[derive(Drop)]
pub struct Gate<T: Held> {
    table: Board<T>,
}

/// A gate with its first pass.
pub struct Opened<T: Held> {
    pub gate: Gate<T>,
    pub pass: Pass<T>,
}

impl<T: Held> Model for Gate<T> {
    ghost use Rattle.std.specs.Prelude.{◌≡◌};
    ghost use Rattle.atomic_table.specs.Seated.{TableId, table_id_coded};

    ghost Value = { TableId };

    ghost coded = { table_id_coded };

    ghost view = { λ gate. gate.table.shared.table_id };

    ghost invariant = { λ gate. (gate.table.shared.table_id.words ≡ 3)
        × (gate.table.shared.table_id.slots ≡ 1) };
}

impl<T: Held> Gate<T> {
    /// A gate round a state that has no history yet, and its first pass, which has the empty name and has seen nothing.
    /// The state comes back where there is no memory.
    pub fn open(alloc: Global, state: T, start: Snapshot<T::Start>) -> Result<Opened<T>, T>
        requires { T.stands state start.value [] }
        ensures opened { IfOk result (λ opened. opened.pass ≡ first_known opened.gate start.value) }
        ensures back { IfErr result (λ given_back. given_back ≡ state) }
    {
        let mut slots = Vec::new(alloc);
        if let Err(failed) = slots.push(Some(state)) {
            let AllocFailed { value } = failed;
            slots.destroy_empty();
            let Some(state) = value else { unreachable!() };
            return Err(state);
        }
        match Table::new(alloc, &[0, 0, 0], slots, &start) {
            Ok((table, seat)) => Ok(Opened {
                gate: Gate { table },
                pass: Pass {
                    seat,
                    room: FIRST_ROOM,
                },
            }),
            Err(refused) => {
                let Refused { mut slots } = refused;
                let last = slots.pop();
                slots.destroy_empty();
                let Some(slot) = last else { unreachable!() };
                let Some(state) = slot else { unreachable!() };
                Err(state)
            }
        }
    }

    /// A new pass, which has the next name of this pass, has seen as much and has made no call. Passes are counted:
    /// each has room for those that may still come from it, and gives a part of its room to a new one. It is refused
    /// exactly where this pass has no room left. This pass is then unchanged.
    pub fn split(&self, pass: &mut Pass<T>) -> Result<Pass<T>, NoMemory>
        requires { pass.old.gate ≡ self.now }
        ensures new { IfOk result (λ child. IsSplit T.law pass.old pass.new child) }
        ensures refused { IsErr result ↔ (pass.old.room ≡ 0) }
        ensures same { OnErr result (pass.new ≡ pass.old) }
    {
        self.table.shared.load::<Review<T>>(&mut pass.seat, SERVING);
        if pass.room == 0 {
            return Err(NoMemory);
        }
        let room = pass.room / SHARE;
        let seat = self.table.shared.split_seat::<Family>(&mut pass.seat);
        pass.room -= room + 1;
        Ok(Pass { seat, room })
    }

    /// Takes the other pass in. This one has then seen the longer of what the two had seen, which goes on from the
    /// shorter, and has the other's names beside its own.
    pub fn join(&self, pass: &mut Pass<T>, other: Pass<T>)
        requires pass { pass.old.gate ≡ self.now }
        requires other { other.gate ≡ self.now }
        ensures joined { IsJoin T.law pass.old other pass.new }
    {
        let Pass { seat, room } = other;
        self.table.shared.join_seat::<Family>(&mut pass.seat, seat);
        self.table.shared.load::<Review<T>>(&mut pass.seat, SERVING);
        pass.room += room + 1;
    }

    /// What the pass has seen, to be handed to another pass. The pass stays as it is. It is never refused, and uses
    /// nothing up.
    pub fn glimpse(&self, pass: &mut Pass<T>) -> Glimpse<T>
        requires { pass.old.gate ≡ self.now }
        ensures glimpse { (result.gate ≡ self.now) × (result.seen ≡ pass.old.seen) }
        ensures same { pass.new ≡ pass.old }
    {
        let seat = self.table.shared.split_seat::<Lore>(&mut pass.seat);
        Glimpse { seat }
    }

    /// The pass has then seen the longer of what it and the glimpse had seen, which goes on from the shorter. Nothing
    /// else of it changes.
    pub fn learn(&self, pass: &mut Pass<T>, glimpse: Glimpse<T>)
        requires pass { pass.old.gate ≡ self.now }
        requires glimpse { glimpse.gate ≡ self.now }
        ensures learned { Learns T.law pass.old glimpse pass.new }
    {
        let Glimpse { seat } = glimpse;
        self.table.shared.join_seat::<Lore>(&mut pass.seat, seat);
        self.table.shared.load::<Review<T>>(&mut pass.seat, SERVING);
    }

    /// The state, which stands for what the pass has seen. The pass is the first one, and all others have been joined
    /// into it.
    pub fn close(self, pass: Pass<T>) -> T
        requires gate { pass.gate ≡ self }
        requires first { pass.name ≡ [] }
        requires all { All (Contains pass.joined) pass.split }
        ensures { Stands T.stands result pass }
    {
        let Gate { table } = self;
        let Pass { seat, room: _ } = pass;
        let mut closed = table.close_with(seat);
        let slot = closed.take(0);
        closed.free();
        let Some(state) = slot else { unreachable!() };
        state
    }

    /// Makes a call. Its entry stands in the history once, under the pass's name, behind all that the pass had seen. It
    /// may wait for the calls of others, and its promise holds where it returns.
    pub fn enter<C: Call<T>, R: Wait>(&self, rt: &R, pass: &mut Pass<T>, call: C) -> C::Answer
        requires gate { pass.old.gate ≡ self.now }
        requires can { C.can call }
        ensures entered { Enters T.law pass.old (C.entry call result) pass.new }
    {
        let ticket = self
            .table
            .shared
            .fetch_add::<Take>(&mut pass.seat, TICKET, 1);
        self.wait(rt, &mut pass.seat, ticket);
        let old = self.table.shared.exchange(&mut pass.seat, 0, None);
        let Some(mut state) = old else { unreachable!() };
        let said = Snapshot::of(&call);
        let answer = call.on(&mut state);
        self.leave::<C, Brand>(&mut pass.seat, state, said, &answer);
        answer
    }

    // Waits until the number served is that of the ticket, and has the state then.
    fn wait<R: Wait>(&self, rt: &R, seat: &mut Place<T>, ticket: u64)
        requires gate { seat.old.table_id ≡ self.now }
        requires ticket { IsWaiting seat.old.me.0 ticket }
        ensures gate { IsSameSeat seat.old seat.new }
        ensures turn { GetsTurn T.stands seat.old.me seat.new.me }
    {
        for _ in rt.forever() {
            let serving = self.table.shared.load::<Look<T>>(seat, SERVING);
            if serving == ticket {
                return;
            }
            self.table
                .shared
                .park(rt, SERVING, (serving & 0xffff_ffff) as u32);
        }
        unreachable!()
    }

    // Counts the entry, puts the state back, and lets the next one come.
    fn leave<C: Call<T>, W: Said<T::Entry>>(
        &self,
        seat: &mut Place<T>,
        state: T,
        call: Snapshot<C>,
        answer: &C::Answer,
    )
        requires gate { seat.old.table_id ≡ self.now }
        requires said { W.entry ≡ Some (C.entry call.value answer.now) }
        requires out { seat.old.me.1 ≡ (0, None) ∷ [] }
        requires ready { IsReady T.stands T.law seat.old.me.0 state
            (C.entry call.value answer.now) }
        ensures gate { IsSameSeat seat.old seat.new }
        ensures view { seat.new.me
            ≡ (at_rest (with_entry seat.old.me.0 (C.entry call.value answer.now)), []) }
        ensures counts { Counts T.law seat.old.me.0 (C.entry call.value answer.now) }
    {
        let shared = &self.table.shared;
        shared.fetch_add::<Count<T, W>>(seat, COUNT, 1);
        let old = shared.exchange(seat, 0, Some(state));
        let None = old else { unreachable!() };
        shared.fetch_add::<Serve>(seat, SERVING, 1);
        shared.wake_all(SERVING);
    }
}
