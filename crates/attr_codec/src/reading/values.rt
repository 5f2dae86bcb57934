//! Reads the values of path attributes (RFC 4271, sections 4.3 and 6.3; RFC 6793; RFC 1997; RFC 4360; RFC 4456;
//! RFC 8092).
ghost use Rattle.std.specs.Prelude.{◌≡◌, IfOk, Some};
ghost use Rattle.answers.specs.Gives.{Gives};
ghost use Rattle.update_grammar.specs.Codes.{number_len, ext_len, large_len};
ghost use Rattle.update_grammar.specs.ReadAttributes.{said_as};
ghost use Rattle.update_grammar.specs.ReadValues.{sized, items_from, number_from, large_from};
ghost use Rattle.update_grammar.specs.ReadValues.{origin_in, number_in, aggregator_in, numbers_in};
ghost use Rattle.update_grammar.specs.ReadValues.{exts_in, larges_in};
ghost use Rattle.attr_codec.specs.Faults.{value_blame};

use crate::codes::{AGGREGATOR_LEN, EGP, EXT_LEN, IGP, INCOMPLETE, LARGE_LEN, NUMBER_LEN};
use crate::fault::ValueFault;
use crate::numbers::read_u32;
use answers::NoMemory;
use route_values::{Aggregator, Exts, Items, Large, Larges, Origin, U32s};
use std::alloc::Global;
use update_grammar::Attr;

/// An ORIGIN (RFC 4271, section 5.1.1).
#[tactic(auto, unfolding(update_grammar::specs::ReadValues::origin_in))]
pub fn origin_in(value: &[u8]) -> Result<Origin, ValueFault>
    ensures { Gives (λ origin. origin) value_blame result (origin_in value.now) }
{
    let [number] = value else {
        return Err(ValueFault::BadLength);
    };
    match *number {
        IGP => Ok(Origin::Igp),
        EGP => Ok(Origin::Egp),
        INCOMPLETE => Ok(Origin::Incomplete),
        _ => Err(ValueFault::BadValue),
    }
}

/// A number, or an IPv4 address.
#[tactic(auto, unfolding(update_grammar::specs::ReadValues::number_in))]
pub fn number_in(value: &[u8]) -> Result<u32, ValueFault>
    ensures { Gives (λ number. number) value_blame result (number_in value.now) }
{
    if value.len() != NUMBER_LEN {
        return Err(ValueFault::BadLength);
    }
    Ok(read_u32(value))
}

/// An ATOMIC_AGGREGATE, which has no bytes (RFC 4271, section 5.1.6).
pub fn atomic_in(value: &[u8]) -> Result<Attr, ValueFault>
    ensures { Gives (λ said. Some said) value_blame result
        (said_as (λ empty. Attr.Atomic) (sized 0 (λ bytes. bytes) value.now)) }
{
    if value.is_empty() {
        Ok(Attr::Atomic)
    } else {
        Err(ValueFault::BadLength)
    }
}

/// An AGGREGATOR (RFC 6793, section 3).
#[tactic(auto, unfolding(update_grammar::specs::ReadValues::aggregator_in))]
pub fn aggregator_in(value: &[u8]) -> Result<Aggregator, ValueFault>
    ensures { Gives (λ aggregator. aggregator) value_blame result (aggregator_in value.now) }
{
    if value.len() != AGGREGATOR_LEN {
        return Err(ValueFault::BadLength);
    }
    Ok(Aggregator {
        asn: read_u32(value),
        addr: read_u32(&value[NUMBER_LEN..]),
    })
}

/// Communities or clusters.
#[tactic(auto, unfolding(update_grammar::specs::ReadValues::numbers_in))]
pub fn numbers_in(alloc: Global, value: &[u8]) -> Result<U32s, ValueFault>
    ensures { Gives (λ numbers. numbers) value_blame result (numbers_in value.now) }
{
    if value.len() % NUMBER_LEN != 0 {
        return Err(ValueFault::BadLength);
    }
    Ok(numbers_from(alloc, value)?)
}

/// Extended communities.
#[tactic(auto, unfolding(update_grammar::specs::ReadValues::exts_in))]
pub fn exts_in(alloc: Global, value: &[u8]) -> Result<Exts, ValueFault>
    ensures { Gives (λ exts. exts) value_blame result (exts_in value.now) }
{
    if value.len() % EXT_LEN != 0 {
        return Err(ValueFault::BadLength);
    }
    Ok(exts_from(alloc, value)?)
}

/// Large communities.
#[tactic(auto, unfolding(update_grammar::specs::ReadValues::larges_in))]
pub fn larges_in(alloc: Global, value: &[u8]) -> Result<Larges, ValueFault>
    ensures { Gives (λ larges. larges) value_blame result (larges_in value.now) }
{
    if value.len() % LARGE_LEN != 0 {
        return Err(ValueFault::BadLength);
    }
    Ok(larges_from(alloc, value)?)
}

/// The numbers of four bytes each that stand in the bytes.
pub fn numbers_from(alloc: Global, bytes: &[u8]) -> Result<U32s, NoMemory>
    ensures { IfOk result (λ numbers. numbers ≡ items_from number_len number_from bytes.now) }
{
    let (chunks, _) = bytes.as_chunks::<NUMBER_LEN>();
    let mut numbers = Vec::with_capacity(alloc, chunks.len())?;
    for chunk in chunks {
        numbers.push(read_u32(chunk))?;
    }
    Ok(Items::from_vec(numbers))
}

// The extended communities of eight bytes each that stand in the bytes.
fn exts_from(alloc: Global, bytes: &[u8]) -> Result<Exts, NoMemory>
    ensures { IfOk result (λ exts. exts ≡ items_from ext_len (λ ext. ext) bytes.now) }
{
    let (chunks, _) = bytes.as_chunks::<EXT_LEN>();
    Ok(Items::from_vec(Vec::from_slice(alloc, chunks)?))
}

// The large communities of twelve bytes each that stand in the bytes.
fn larges_from(alloc: Global, bytes: &[u8]) -> Result<Larges, NoMemory>
    ensures { IfOk result (λ larges. larges ≡ items_from large_len large_from bytes.now) }
{
    let (chunks, _) = bytes.as_chunks::<LARGE_LEN>();
    let mut larges = Larges::new(alloc);
    for chunk in chunks {
        larges.push(large_from(chunk))?;
    }
    Ok(larges)
}

fn large_from(chunk: &[u8; LARGE_LEN]) -> Large
    ensures { result ≡ large_from chunk.now }
{
    Large {
        global: read_u32(chunk),
        first: read_u32(&chunk[NUMBER_LEN..]),
        second: read_u32(&chunk[2 * NUMBER_LEN..]),
    }
}
