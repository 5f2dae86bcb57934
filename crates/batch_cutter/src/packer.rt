//! Puts keys into one message.
ghost use Rattle.std.specs.Prelude.{◌≡◌, ◌+◌, ◌*◌, ◌≤◌, ◌↔◌, [], ◌∷◌, ◌++◌, List, length, IsTrue};
ghost use Rattle.std.specs.Bool.{OnTrue, OnFalse};
ghost use Rattle.route_values.specs.Caps.{Caps};
ghost use Rattle.route_values.specs.declared.key.Key.{Key};
ghost use Rattle.route_values.specs.Key.{family_of_key};
ghost use Rattle.update_grammar.specs.Head.{Head as Purpose};
ghost use Rattle.update_grammar.specs.Packed.{room};
ghost use Rattle.update_grammar.specs.Written.{written};
ghost use Rattle.attr_codec.specs.Sizes.{attr_size};
ghost use Rattle.attr_codec.specs.Buffer.{max_message};
ghost use Rattle.update_codec.specs.Open.{IsOpenHere, AddsHere, TellsHereFits};
ghost use Rattle.batch_cutter.specs.Heads.{head_told, CanBegin, Fits, TakesAKey};
ghost use Rattle.batch_cutter.specs.Kinds.{family_of_kind, TakesKeys, HasKeys};
ghost use Rattle.batch_cutter.specs.Sizes.{field_size};

use crate::head::Head;
use crate::key::key_len;
use crate::kind::Kind;
use crate::opening::{kind_of, open};
use attr_codec::Message;
use attr_codec::codes::{EXTENDED_HEAD_LEN, HEAD_LEN, IPV6_UNICAST, REACH_LEN, SHORT_MAX};
use route_values::{Caps, Family, Key};
use std::marker::Model;
use update_codec::{limits_fit, put_nlri, put_reach, put_unreach};

// How many bytes a message has at most (RFC 4271, section 4.1), and where long ones were agreed (RFC 8654, section 3).
const MAX_MESSAGE: usize = 4096;

const MAX_LONG_MESSAGE: usize = 65_535;

/// A message that is being packed: it withdraws or announces keys of one family, or is a marker. Its bytes stand in the
/// buffer that each call is lent, and that nothing else changes meanwhile.
#[derive(Drop)]
pub struct Packer {
    caps: Caps,
    kind: Kind,
    // How many bytes the prefixes have so far.
    filled: usize,
}

impl Model for Packer {
    ghost use Rattle.batch_cutter.specs.Packing.{Packing};

    ghost Value = { Packing };

    ghost view = { λ p. record { caps = p.caps; kind = p.kind; filled = p.filled } };
}

impl Packer {
    ghost use Rattle.batch_cutter.specs.Packing.{Holds, IsOpen, Adds};

    /// Begins a message in an empty buffer, which has room for a message of the session. What is announced is within
    /// the limits of a route, and its next hop is of the family.
    pub fn begin(out: &mut Message, caps: Caps, head: Head<'_>) -> Packer
        requires empty { out.old.bytes ≡ [] }
        requires room { room caps ≤ out.old.room }
        requires begun { CanBegin (head_told head) }
        ensures holds { Holds result (head_told head.entry) [] out.new }
        ensures open { IsOpen result out.new }
        ensures caps { result.caps ≡ caps }
        ensures room { out.new.room ≡ out.old.room }

        // A first key fits, whichever it is.
        ensures first { TakesAKey caps (head_told head.entry) }
    {
        // For the proof: by the law the message fits.
        limits_fit();
        open(out, head);
        Packer {
            caps,
            kind: kind_of(head),
            filled: 0,
        }
    }

    /// Puts one more key of the head's family into the message, which is no marker. Answers false, with all as it was,
    /// exactly where the message with the key would be longer than those of the session may be: 4,096 bytes, or 65,535
    /// where long messages were agreed.
    pub fn add(&mut self, out: &mut Message, key: &Key) -> bool
        requires open { IsOpen self.old out.old }
        requires keyed { TakesKeys self.old.kind }
        requires family { family_of_key key.now ≡ family_of_kind self.old.kind }
        ensures fits { (head : Purpose) (keys : List Key) → Holds self.old head keys out.old
            → IsTrue result ↔ Fits self.old.caps head (keys ++ key.now ∷ []) }

        // What is left where it fits, and where it doesn't.
        ensures added { OnTrue result (Adds key.now self.old self.new out.old out.new) }
        ensures keyed { OnTrue result (HasKeys self.new.kind self.new.filled) }
        ensures still_open { IsOpen self.new out.new }
        ensures room { out.new.room ≡ out.old.room }
        ensures refused { OnFalse result ((self.new ≡ self.old) × (out.new ≡ out.old)) }
    {
        let len = key_len(key, self.caps.path(key.family()));
        if self.len_with(out, len) > room_of(&self.caps) {
            return false;
        }
        // It fits the buffer, which has room for each message of the session.
        let _ = self.put(out, key);
        self.filled += len;
        true
    }

    /// Ends the message, which has a key unless it is a marker. All its lengths are right already, as each call leaves
    /// them so.
    pub fn finish(self, out: &mut Message)
        requires open { IsOpen self out.old }
        requires keyed { HasKeys self.kind self.filled }
        ensures text { (head : Purpose) (keys : List Key) → Holds self head keys out.old
            → out.new.bytes ≡ written self.caps head keys }
        ensures same { out.new ≡ out.old }
    {}

    // How many bytes the message has with so many more of prefixes.
    fn len_with(&self, out: &Message, more: usize) -> usize
        requires open { IsOpen self.now out.now }
        requires keyed { TakesKeys self.now.kind }
        requires small { more ≤ 21 }
        ensures { result + field_size self.now.kind self.now.filled
            ≡ length out.now.bytes + field_size self.now.kind (self.now.filled + more) }
    {
        let rest = out.bytes().len() - field_len(self.kind, self.filled);
        rest + field_len(self.kind, self.filled + more)
    }

    // Puts a key at the end of the prefixes.
    fn put(&self, out: &mut Message, key: &Key) -> bool
        requires open { IsOpen self.now out.old }
        requires keyed { TakesKeys self.now.kind }
        requires family { family_of_key key.now ≡ family_of_kind self.now.kind }
        ensures fits { (head : Purpose) (keys : List Key) → Holds self.now head keys out.old
            → IsTrue result
            ↔ (length (written self.now.caps head (keys ++ key.now ∷ [])) ≤ out.old.room) }
        ensures text { (head : Purpose) (keys : List Key) → Holds self.now head keys out.old
            → OnTrue result (out.new.bytes ≡ written self.now.caps head (keys ++ key.now ∷ [])) }
        ensures room { out.new.room ≡ out.old.room }
        ensures refused { OnFalse result (out.new ≡ out.old) }
    {
        match self.kind {
            Kind::Gone(_) => put_unreach(out, &self.caps, key),
            Kind::Here(_) => put_here(out, &self.caps, key),
            Kind::End(_) => false,
        }
    }
}

// Puts a key at the end of the prefixes of an announcement.
fn put_here(out: &mut Message, caps: &Caps, key: &Key) -> bool
    requires open { IsOpenHere caps.now (family_of_key key.now) out.old.bytes }
    ensures fits { TellsHereFits caps.now (family_of_key key.now) key.now out.old result }
    ensures ok { OnTrue result
        (AddsHere caps.now (family_of_key key.now) key.now out.old.bytes out.new.bytes) }
    ensures room { out.new.room ≡ out.old.room }
    ensures refused { OnFalse result (out.new ≡ out.old) }
{
    match key.family() {
        Family::Ipv4 => put_nlri(out, caps, key),
        Family::Ipv6 => put_reach(out, caps, key),
    }
}

// How many bytes a message of a session has at most.
fn room_of(caps: &Caps) -> usize
    ensures { result ≡ room caps.now }
{
    if caps.extended() {
        MAX_LONG_MESSAGE
    } else {
        MAX_MESSAGE
    }
}

// How many bytes the part of a message takes in which its prefixes stand, if they have so many.
fn field_len(kind: Kind, filled: usize) -> usize
    requires { filled ≤ 2 * max_message }
    ensures value { result ≡ field_size kind filled }
{
    match kind {
        Kind::Gone(Family::Ipv6) => attribute_len(IPV6_UNICAST.len() + filled),
        Kind::Here(Family::Ipv6) => attribute_len(REACH_LEN + filled),
        Kind::Gone(Family::Ipv4) | Kind::Here(Family::Ipv4) | Kind::End(_) => filled,
    }
}

// How many bytes an attribute has with a value of so many: its length has two bytes past 255.
fn attribute_len(value_len: usize) -> usize
    requires { value_len ≤ 3 * max_message }
    ensures { result ≡ attr_size value_len }
{
    if value_len > SHORT_MAX {
        EXTENDED_HEAD_LEN + value_len
    } else {
        HEAD_LEN + value_len
    }
}
