//! The nodes of slots among the groups.

ghost use Rattle.std.specs.Prelude.{◌≡◌, ◌≢◌, ◌⊎◌, ℕ, ◌+◌, ◌-◌, ◌*◌, ◌<◌, ◌≤◌, ◌^◌, ◌||◌, ◌&&◌};
ghost use Rattle.std.specs.Prelude.{◌%◌};
ghost use Rattle.std.specs.Prelude.{◌==◌, Bool, true, false, length, None, nat_lt, slice_set};
ghost use Rattle.linked_pending.specs.Links.{link};
ghost use Rattle.linked_pending.specs.Group.{group_of, without_node};
ghost use Rattle.linked_pending.specs.Layout.{has_node};
ghost use Rattle.slot_batches.specs.Slots.{flag_of, owes};
ghost use Rattle.slot_batches.specs.Owing.{expected, node_of, AllWaitBy, IsKept, IsOut, Waits};
ghost use Rattle.slot_batches.specs.Owing.{HasMarked, HasUnmarked, HasEmptied};

use linked_pending::Pending;

/// Whether a slot with this value is owed.
pub fn is_owed(was: usize, now: usize, again: bool) -> bool
    ensures { result ≡ owes was now again }
{
    was != now || (1 < now && again)
}

/// Which of two flags is that of a value.
pub fn flag_of(even: bool, odd: bool, value: usize) -> bool
    ensures { result ≡ flag_of even odd value }
{
    if value % 2 == 0 { even } else { odd }
}

/// What the peer has of a slot once the open batch is through.
pub fn expected(sents: &[usize], pending: &Pending, side: usize, slot: usize) -> usize
    requires slot { slot < length sents.now }
    requires side { side ≤ 1 }
    requires fits { 2 * slot + 3 < 2 ^ 63 }
    ensures { result ≡ expected sents.now pending.now.frozen side slot }
{
    match pending.frozen_group(2 * slot + 2 + (1 - side)) {
        Some(value) => value,
        None => sents[slot],
    }
}

/// Lets a slot wait with its value where that is owed, and not wait else.
pub fn settle(
    nows: &[usize],
    sents: &[usize],
    pending: &mut Pending,
    side: usize,
    slot: usize,
    again: bool,
)
    requires kept { IsKept nows.now sents.now pending.old side }
    requires slot { slot < length nows.now }
    ensures kept { IsKept nows.now sents.now pending.new side }
    ensures here { Waits nows.now sents.now pending.new side slot again }
    ensures others { (node : ℕ) → node ≢ node_of side slot
        → group_of node pending.new.waiting ≡ group_of node pending.old.waiting }
    ensures frozen { pending.new.frozen ≡ pending.old.frozen }
    ensures room { pending.new.room ≡ pending.old.room }
{
    let node = 2 * slot + 2 + side;
    let owed = is_owed(expected(sents, pending, side, slot), nows[slot], again);
    pending.leave(node);
    if owed {
        pending.join(nows[slot], node);
    }
}

/// Takes the nodes that are no slot's out of the groups that wait.
pub fn unmark(pending: &mut Pending)
    requires even { group_of 0 pending.old.frozen ≡ None }
    requires odd { group_of 1 pending.old.frozen ≡ None }
    ensures unmarked { HasUnmarked pending.old pending.new }
    ensures even_gone { group_of 0 pending.new.waiting ≡ None }
    ensures odd_gone { group_of 1 pending.new.waiting ≡ None }
{
    pending.leave(0);
    pending.leave(1);
}

/// Puts the nodes that are no slot's into the groups of slots without a value. While they wait these groups are never
/// empty, and stay before all groups that began to wait later.
pub fn mark(pending: &mut Pending)
    requires even { group_of 0 pending.old.frozen ≡ None }
    requires odd { group_of 1 pending.old.frozen ≡ None }
    ensures { HasMarked pending.old pending.new }
{
    unmark(pending);
    if pending.room() > 1 {
        pending.join(0, 0);
        pending.join(1, 1);
    }
}

/// Lets each slot of a parity wait that has a value.
pub fn renew(nows: &[usize], sents: &[usize], pending: &mut Pending, side: usize, parity: usize)
    requires kept { IsKept nows.now sents.now pending.old side }
    ensures kept { IsKept nows.now sents.now pending.new side }
    ensures waits { (again : ℕ → Bool) → AllWaitBy nows.now sents.now pending.old side again
        → AllWaitBy nows.now sents.now pending.new side
        (λ s. (link nows.now s % 2 == parity) || again s) }
    ensures frozen { pending.new.frozen ≡ pending.old.frozen }
    ensures room { pending.new.room ≡ pending.old.room }
{
    'slots: for slot in 0..nows.len() {
        renew_slot(nows, sents, pending, side, parity, slot);
    }
}

fn renew_slot(
    nows: &[usize],
    sents: &[usize],
    pending: &mut Pending,
    side: usize,
    parity: usize,
    slot: usize,
)
    requires kept { IsKept nows.now sents.now pending.old side }
    requires slot { slot < length nows.now }
    ensures kept { IsKept nows.now sents.now pending.new side }
    ensures waits { (again : ℕ → Bool) → AllWaitBy nows.now sents.now pending.old side again
        → AllWaitBy nows.now sents.now pending.new side
        (λ s. (s == slot && link nows.now s % 2 == parity) || again s) }
    ensures frozen { pending.new.frozen ≡ pending.old.frozen }
    ensures room { pending.new.room ≡ pending.old.room }
{
    if nows[slot] % 2 == parity {
        settle(nows, sents, pending, side, slot, true);
    }
}

/// Takes the values of all slots from them, and their nodes out of all groups.
pub fn empty(nows: &mut Vec<usize>, sents: &mut Vec<usize>, pending: &mut Pending)
    requires same_length { length sents.old.items ≡ length nows.old.items }
    requires fits { (slot : ℕ) → slot < length nows.old.items → 2 * slot + 3 < 2 ^ 63 }
    ensures { HasEmptied nows.old.items nows.new.items sents.old.items sents.new.items
        pending.old pending.new (length nows.old.items) }
{
    'slots: for slot in 0..nows.len() {
        empty_slot(nows, sents, pending, slot);
    }
}

fn empty_slot(nows: &mut Vec<usize>, sents: &mut Vec<usize>, pending: &mut Pending, slot: usize)
    requires slot { slot < length nows.old.items }
    requires same_length { length sents.old.items ≡ length nows.old.items }
    requires fits { 2 * slot + 3 < 2 ^ 63 }
    ensures nows { nows.new.items ≡ slice_set nows.old.items slot (link nows.old.items slot % 2) }
    ensures sents { sents.new.items
        ≡ slice_set sents.old.items slot (link nows.old.items slot % 2) }
    ensures pending { pending.new ≡ record pending.old {
      waiting = without_node (2 * slot + 3) (without_node (2 * slot + 2) pending.old.waiting);
      frozen = without_node (2 * slot + 3) (without_node (2 * slot + 2) pending.old.frozen);
    } }
{
    let none = nows[slot] % 2;
    nows[slot] = none;
    sents[slot] = none;
    pending.leave(2 * slot + 2);
    pending.leave(2 * slot + 3);
}
