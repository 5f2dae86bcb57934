//! Makes the next message of a batch.
ghost use Rattle.std.specs.Prelude.{◌≡◌, ◌≤◌, ◌↔◌, [], IsTrue, IsSome};
ghost use Rattle.std.specs.Bool.{OnTrue, OnFalse};
ghost use Rattle.update_grammar.specs.Packed.{room};
ghost use Rattle.batch_cutter.specs.Filling.{CanFill, Fills};
ghost use Rattle.batch_cutter.specs.Groups.{IsBegun};
ghost use Rattle.batch_cutter.specs.Items.{front};

use crate::batch::{Batch, Due};
use crate::group::{Group, key_in};
use crate::head::Head;
use crate::packer::Packer;
use attr_codec::Message;
use route_values::Caps;

/// Fills an empty buffer, which has room for a message of the session, with the next message of a batch, and leads the
/// batch past what the message says: as many items of one kind as fit, or one marker. What is announced first is within
/// the limits of a route, and its next hop is of its key's family. Answers false, with all as it was, exactly where
/// nothing is left.
pub fn fill<B: Batch>(batch: &mut B, caps: Caps, out: &mut Message) -> bool
    requires empty { out.old.bytes ≡ [] }
    requires room { room caps ≤ out.old.room }
    requires route { CanFill (B.left batch.old) }
    ensures some { IsTrue result ↔ IsSome (front (B.left batch.old)) }

    // Behind messages that are packed, the message is packed too.
    ensures message { OnTrue result
        (Fills B.left B.passes caps batch.old batch.new out.new.bytes) }
    ensures room { out.new.room ≡ out.old.room }
    ensures none { OnFalse result ((batch.new ≡ batch.old) × (out.new ≡ out.old)) }
{
    match batch.due() {
        Due::Empty => false,
        Due::End(family) => {
            Packer::begin(out, caps, Head::End(family)).finish(out);
            batch.sent();
            true
        }
        Due::Gone(key) => {
            let family = key.family();
            let packer = Packer::begin(out, caps, Head::Gone(family));
            pack(batch, Group::Gone(family), packer, out);
            true
        }
        Due::Here(number, key, attrs) => {
            let packer = Packer::begin(out, caps, Head::Here(key.family(), attrs));
            pack(batch, Group::Here(number), packer, out);
            true
        }
    }
}

// Packs the items of a group, from the front on, as many as fit.
fn pack<B: Batch>(batch: &mut B, group: Group, mut packer: Packer, out: &mut Message)
    requires begun { IsBegun group (B.left batch.old) packer out.old }
    ensures message { Fills B.left B.passes packer.caps batch.old batch.new out.new.bytes }
    ensures room { out.new.room ≡ out.old.room }
{
    'items: while let Some(key) = key_in(batch.due(), group) {
        if !packer.add(out, &key) {
            packer.finish(out);
            return;
        }
        batch.sent();
    }
    packer.finish(out);
}
