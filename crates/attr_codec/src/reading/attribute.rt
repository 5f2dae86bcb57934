//! Reads what one attribute says (RFC 4271, section 6.3; RFC 4760, section 7).
ghost use Rattle.std.specs.Prelude.{◌≡◌, ◌+◌, ◌^◌, ◌<◌, ◌≤◌, List, ℕ, IfErr};
ghost use Rattle.answers.specs.Gives.{Gives};
ghost use Rattle.update_grammar.specs.Faults.{attr_blame};
ghost use Rattle.update_grammar.specs.ReadAttributes.{head_len, value_in, attr_of, place_of};
ghost use Rattle.attr_codec.specs.Faults.{value_blame, fault_at};
ghost use Rattle.attr_codec.specs.Marks.{HasCodes};
ghost use Rattle.attr_codec.specs.Raws.{raw_of};

use super::codes::{Codes, has_flags};
use super::families::{reach_in, unreach_in};
use super::path::path_in;
use super::raw::{RawAttr, is_extended};
use super::values::{
    aggregator_in, atomic_in, exts_in, larges_in, number_in, numbers_in, origin_in,
};
use crate::codes::{
    AGGREGATOR, AS_PATH, ATOMIC_AGGREGATE, CLUSTER_LIST, COMMUNITIES, EXTENDED_COMMUNITIES,
    EXTENDED_HEAD_LEN, HEAD_LEN, LARGE_COMMUNITY, LEN_OFFSET, LOCAL_PREF, MP_REACH_NLRI,
    MP_UNREACH_NLRI, MULTI_EXIT_DISC, NEXT_HOP, ORIGIN, ORIGINATOR_ID,
};
use crate::fault::ValueFault;
use route_values::Caps;
use std::alloc::Global;
use update_grammar::{Attr, AttrFault};

/// What the attribute at a place says, behind attributes of other codes: None where its code is unknown.
#[tactic(auto, unfolding(update_grammar::specs::ReadAttributes::attr_of))]
pub fn attr_of(
    alloc: Global,
    attr: &RawAttr<'_>,
    place: usize,
    codes: &Codes,
    caps: &Caps,
) -> Result<Option<Attr>, AttrFault>
    requires { place + head_len attr.now.flags < 2 ^ 64 }
    ensures exact { (before : List ℕ) → HasCodes codes.now before
        → Gives (λ said. said) attr_blame result
        (attr_of caps.now (record { place = place; codes = before }) (raw_of attr.now)) }
    ensures within { IfErr result (λ fault. place_of fault ≤ place + head_len attr.now.flags) }
{
    if !has_flags(attr.code, attr.flags) {
        return Err(AttrFault::BadFlags(place));
    }
    if codes.has(attr.code) {
        return Err(AttrFault::Twice(place));
    }
    match value_in(alloc, attr.code, attr.value, caps) {
        Ok(said) => Ok(said),
        Err(fault) => Err(fault_at(fault, place, attr.flags)),
    }
}

// A fault of the value of an attribute at a place: its length stands behind flags and code.
fn fault_at(fault: ValueFault, place: usize, flags: u8) -> AttrFault
    requires { place + head_len flags < 2 ^ 64 }
    ensures value { result ≡ fault_at place flags fault }
    ensures within { place_of result ≤ place + head_len flags }
{
    match fault {
        ValueFault::BadLength => AttrFault::BadLength(place + LEN_OFFSET),
        ValueFault::BadValue if is_extended(flags) => AttrFault::BadValue(
            place + EXTENDED_HEAD_LEN,
        ),
        ValueFault::BadValue => AttrFault::BadValue(place + HEAD_LEN),
        ValueFault::NoMemory => AttrFault::NoMemory,
    }
}

// What a value of a code says: None where the code is unknown.
#[tactic(auto, unfolding(update_grammar::specs::ReadAttributes::value_in))]
fn value_in(alloc: Global, code: u8, value: &[u8], caps: &Caps) -> Result<Option<Attr>, ValueFault>
    ensures { Gives (λ said. said) value_blame result (value_in caps.now code value.now) }
{
    Ok(Some(match code {
        ORIGIN => Attr::Origin(origin_in(value)?),
        AS_PATH => Attr::Path(path_in(alloc, value)?),
        NEXT_HOP => Attr::NextHop(number_in(value)?),
        MULTI_EXIT_DISC => Attr::Med(number_in(value)?),
        LOCAL_PREF => Attr::LocalPref(number_in(value)?),
        ATOMIC_AGGREGATE => atomic_in(value)?,
        AGGREGATOR => Attr::Aggregator(aggregator_in(value)?),
        COMMUNITIES => Attr::Communities(numbers_in(alloc, value)?),
        ORIGINATOR_ID => Attr::Originator(number_in(value)?),
        CLUSTER_LIST => Attr::Clusters(numbers_in(alloc, value)?),
        MP_REACH_NLRI => Attr::Reach(reach_in(alloc, value, caps)?),
        MP_UNREACH_NLRI => Attr::Unreach(unreach_in(alloc, value, caps)?),
        EXTENDED_COMMUNITIES => Attr::Extended(exts_in(alloc, value)?),
        LARGE_COMMUNITY => Attr::Large(larges_in(alloc, value)?),
        _ => return Ok(None),
    }))
}
