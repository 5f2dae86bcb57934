//! Which items of a batch go into one message.
ghost use Rattle.std.specs.Prelude.{◌≡◌, ◌↔◌, IsTrue, MatchOption};
ghost use Rattle.route_values.specs.declared.key.Key.{Key};
ghost use Rattle.batch_cutter.specs.Groups.{Names};
ghost use Rattle.batch_cutter.specs.Items.{item_told};

use crate::batch::Due;
use route_values::{Family, Key};

/// What the items of one message have in common.
#[derive(Clone, Copy)]
pub enum Group {
    /// They withdraw keys of this family.
    Gone(Family),
    /// They announce keys with the value of this number, and so of one family.
    Here(usize),
}

/// The key of an item that is in the group; None exactly where it isn't.
pub fn key_in(due: Due<'_>, group: Group) -> Option<Key>
    ensures { MatchOption result ((key : Key) → ¬ (Names group (item_told due.entry) key))
        (λ key. Names group (item_told due.entry) key) }
{
    match (group, due) {
        (Group::Gone(family), Due::Gone(key)) => {
            if are_same(key.family(), family) {
                Some(*key)
            } else {
                None
            }
        }
        (Group::Here(wanted), Due::Here(number, key, _)) => {
            if number == wanted { Some(*key) } else { None }
        }
        (Group::Gone(_), Due::Here(..) | Due::End(_) | Due::Empty)
        | (Group::Here(_), Due::Gone(_) | Due::End(_) | Due::Empty) => None,
    }
}

fn are_same(a: Family, b: Family) -> bool
    ensures { IsTrue result ↔ (a ≡ b) }
{
    a == b
}
