//! What stands in a message before its first key.
ghost use Rattle.std.specs.Prelude.{◌≡◌, ◌≤◌, []};
ghost use Rattle.route_values.specs.Caps.{Caps};
ghost use Rattle.update_grammar.specs.Written.{written};
ghost use Rattle.update_codec.specs.Sizes.{least_room};
ghost use Rattle.batch_cutter.specs.Heads.{head_told, kind_of, CanBegin};

use crate::head::Head;
use crate::kind::Kind;
use attr_codec::Message;
use update_codec::{open_gone, open_here, put_end_of_rib};

/// Writes a message without keys. It fits each session's room: a marker has no more than 29 bytes, and attributes
/// within the limits leave room for a key.
pub fn open(out: &mut Message, head: Head<'_>)
    requires empty { out.old.bytes ≡ [] }
    requires room { least_room ≤ out.old.room }
    requires begun { CanBegin (head_told head) }
    ensures text { (caps : Caps) → out.new.bytes ≡ written caps (head_told head.entry) [] }
    ensures room { out.new.room ≡ out.old.room }
{
    match head {
        Head::Gone(family) => open_gone(out, family),
        Head::Here(family, attrs) => {
            let _ = open_here(out, attrs, family);
        }
        Head::End(family) => {
            let _ = put_end_of_rib(out, family);
        }
    }
}

/// The head without the value that it announces.
pub fn kind_of(head: Head<'_>) -> Kind
    ensures { result ≡ kind_of (head_told head.entry) }
{
    match head {
        Head::Gone(family) => Kind::Gone(family),
        Head::Here(family, _) => Kind::Here(family),
        Head::End(family) => Kind::End(family),
    }
}
