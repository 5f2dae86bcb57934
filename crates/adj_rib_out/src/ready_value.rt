//! How a written value is made ready.

ghost use Rattle.std.specs.Prelude.{◌≡◌, ◌<◌, ◌+◌, ◌*◌, ◌^◌, ℕ, IfOk, OnErr};
ghost use Rattle.linked_pending.specs.Links.{link};
ghost use Rattle.adj_rib_out.specs.Readied.{ReadiesNone, ReadiesValue};

use crate::values::Values;
use route_values::{Attrs, NoMemory};
use slot_batches::Slots;

// So many numbers of wire attributes can be made room for.
const MOST: usize = usize::MAX / 4;

/// Stands a written value ready, and answers its number. An equal one that stands gives its number, and nothing is
/// copied. Where memory is wanting its wire attributes may stand alone.
pub fn ready_value(
    values: &mut Values,
    slots: &mut Slots,
    written: &Attrs,
) -> Result<usize, NoMemory>
    requires room { (wire : ℕ) → link values.old.uses wire + 1 < 2 ^ 64 }
    ensures ok { IfOk result (λ number.
        ReadiesValue values.old values.new slots.old slots.new written.now number) }
    ensures err { OnErr result
        (ReadiesNone values.old values.new slots.old slots.new written.now) }
{
    if let Some(number) = values.find(written) {
        return Ok(number);
    }
    let room = room_beyond(values.wires())?;
    slots.reserve(room)?;
    values.add(written)
}

/// The room that slots need for the numbers of so many wire attributes, and of one more.
pub fn room_beyond(wires: usize) -> Result<usize, NoMemory>
    ensures { IfOk result (λ room. room ≡ 2 * wires + 4) }
{
    if wires < MOST {
        Ok(2 * wires + 4)
    } else {
        Err(NoMemory)
    }
}
