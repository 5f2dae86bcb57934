//! The remark on a line that tells nothing.
ghost use Rattle.std.specs.Prelude.{◌≡◌, ◌++◌, IfOk, OnOk, decimal};
ghost use Rattle.update_grammar.specs.ReadAttributes.{place_of};
ghost use Rattle.text_printer.specs.Refusals.{GoesOnWith, IsRefusal, fault_text, offset_of};

use crate::fault::Unread;
use crate::printing::Printed;
use arrayvec::ArrayVec;
use route_values::{Items, NoMemory};
use std::alloc::Global;
use text_forms::{MAX_U64_TEXT, put_u64};
use update_grammar::{AttrFault, UpdateFault};

/// The remark on the line of this number that has this fault: `# refused`, the number, and the fault's kind. The kind
/// of a fault of the body is `update`, its number and its offset, or the code of the attribute that is missing. Want
/// of memory has no remark, and is answered as such.
pub fn print_refusal(alloc: Global, number: u64, unread: &Unread) -> Result<Printed, NoMemory>
    ensures { IfOk result (λ text. IsRefusal number unread.now text) }
{
    let mut text = Vec::from_slice(alloc, b"# refused ")?;
    put_number(&mut text, number)?;
    text.extend_from_slice(b" ")?;
    put_kind(&mut text, unread)?;
    Ok(Items::from_vec(text))
}

fn put_kind(text: &mut Vec<u8>, unread: &Unread) -> Result<(), NoMemory>
    ensures { OnOk result (GoesOnWith unread.now text.old.items text.new.items) }
{
    match unread {
        Unread::Long => put(text, b"long"),
        Unread::Hex => put(text, b"hex"),
        Unread::Frame => put(text, b"frame"),
        Unread::Update(fault) => put_fault(text, fault),
        Unread::NoMemory => Err(NoMemory),
    }
}

fn put_fault(text: &mut Vec<u8>, fault: &UpdateFault) -> Result<(), NoMemory>
    ensures { OnOk result (text.new.items ≡ text.old.items ++ fault_text fault.now) }
{
    put(text, b"update ")?;
    put_number(text, fault.number().into())?;
    put(text, b" ")?;
    put_number(text, offset_of(fault) as u64)?;
    Ok(())
}

// Where a fault is, or the code of the attribute that is missing.
fn offset_of(fault: &UpdateFault) -> usize
    ensures { result ≡ offset_of fault.now }
{
    match fault {
        UpdateFault::Attr(fault) => place_of(fault),
        UpdateFault::BadLengths(place) | UpdateFault::BadPrefix(place) => *place,
        UpdateFault::MissingAttr(code) => usize::from(*code),
    }
}

fn place_of(fault: &AttrFault) -> usize
    ensures { result ≡ place_of fault.now }
{
    match fault {
        AttrFault::Cut(place)
        | AttrFault::BadFlags(place)
        | AttrFault::Twice(place)
        | AttrFault::BadLength(place)
        | AttrFault::BadValue(place) => *place,
        AttrFault::NoMemory => 0,
    }
}

fn put_number(text: &mut Vec<u8>, number: u64) -> Result<(), NoMemory>
    ensures { OnOk result (text.new.items ≡ text.old.items ++ decimal number) }
{
    let mut digits: ArrayVec<u8, MAX_U64_TEXT> = ArrayVec::new();
    put_u64(number, &mut digits);
    put(text, &digits)
}

fn put(text: &mut Vec<u8>, bytes: &[u8]) -> Result<(), NoMemory>
    ensures { OnOk result (text.new.items ≡ text.old.items ++ bytes.now) }
{
    text.extend_from_slice(bytes)?;
    Ok(())
}
