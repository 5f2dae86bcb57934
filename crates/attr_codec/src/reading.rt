//! Reads path attributes and prefixes.
ghost use Rattle.std.specs.Prelude.{◌≡◌, ◌≤◌, ◌++◌, List, length, IfErr, IfOk, Ok, option_to_list};
ghost use Rattle.answers.specs.Gives.{Gives};
ghost use Rattle.update_grammar.specs.declared.effect.Attr.{Attr};
ghost use Rattle.update_grammar.specs.Faults.{attr_blame};
ghost use Rattle.update_grammar.specs.Meanings.{SpellsAttributes};
ghost use Rattle.update_grammar.specs.ReadAttributes.{attrs_in, place_of};

mod attribute;
mod codes;
mod families;
mod path;
mod prefixes;
mod raw;
mod values;

use answers::NoMemory;
use attribute::attr_of;
use codes::Codes;
pub use prefixes::read_keys;
use raw::raw_at;
use route_values::{Caps, Items};
use std::alloc::Global;
use update_grammar::{Attr, AttrFault};

/// What attributes say, in the order in which they stand.
pub type AttrList = Items<Attr>;

/// What the path attributes say that bytes are made of, all of them, or their first fault (RFC 4271, sections 4.3 and
/// 6.3; RFC 4760; RFC 6793: four bytes an AS number). An attribute of an unknown code says nothing. `caps` are those
/// of the session that the bytes came by. The work grows with the number of bytes.
pub fn read_attrs(alloc: Global, bytes: &[u8], caps: &Caps) -> Result<AttrList, AttrFault>
    // What is read is spelled, and what is spelled is read, unless memory runs out.
    ensures found { IfOk result (λ said. SpellsAttributes caps.now bytes.now said) }
    ensures only { (said : List Attr) → SpellsAttributes caps.now bytes.now said
        → Gives (λ list. list) attr_blame result (Ok said) }

    // Which fault it is, and that it stands in the bytes.
    ensures exact { Gives (λ list. list) attr_blame result (attrs_in caps.now bytes.now) }
    ensures within { IfErr result (λ fault. place_of fault ≤ length bytes.now) }
{
    said_in(alloc, bytes, caps)
}

// What the attributes say, one after the other.
fn said_in(alloc: Global, bytes: &[u8], caps: &Caps) -> Result<AttrList, AttrFault>
    ensures exact { Gives (λ list. list) attr_blame result (attrs_in caps.now bytes.now) }
    ensures within { IfErr result (λ fault. place_of fault ≤ length bytes.now) }
{
    let mut list = AttrList::new(alloc);
    let mut codes = Codes::new();
    let mut rest = bytes;
    'attrs: while !rest.is_empty() {
        let place = bytes.len() - rest.len();
        let Some((attr, behind)) = raw_at(rest) else {
            return Err(AttrFault::Cut(place));
        };
        let said = attr_of(alloc, &attr, place, &codes, caps)?;
        push_said(&mut list, said)?;
        codes.add(attr.code);
        rest = behind;
    }
    Ok(list)
}

// Puts what an attribute says at the end, if it says anything.
fn push_said(list: &mut AttrList, said: Option<Attr>) -> Result<(), NoMemory>
    ensures { IfOk result (λ _. list.new ≡ list.old ++ option_to_list said) }
{
    match said {
        Some(said) => list.push(said),
        None => Ok(()),
    }
}
