//! Reads the line of a message.
ghost use Rattle.std.specs.Prelude.{◌≡◌, ◌↔◌, IfErr, IfOk, IsTrue};
ghost use Rattle.text_printer.specs.Forms.{IsHexLine};
ghost use Rattle.text_printer.specs.Reading.{Reads, ReadsBody, ReadsBytes, ReadsHex};
ghost use Rattle.text_printer.specs.Reading.{unread_hex, unread_of};

mod forms;
mod frame;

use crate::fault::Unread;
use forms::digits_in;
pub use forms::without_return;
use frame::update_body;
use hex::{FromHexError, decode};
use route_values::Caps;
use std::alloc::Global;
use update_codec::{Effects, read_update};
use update_grammar::{AttrFault, UpdateFault};

/// How many bytes a line may have, its carriage return counted.
pub const MAX_LINE: usize = 131_100;

/// The effects that the line of a message tells, or its first fault. `caps` are those of the session that the message
/// came by; with extended messages it may have 65,535 bytes, else 4,096.
///
/// A line is an UPDATE in hexadecimal digits of either case, alone or as messages are printed: `update N more` or
/// `update N last`, one space, and the digits. N is a neighbour's number up to 63. One carriage return at the line's
/// end is dropped. The work and the memory that is taken grow with the line's length.
pub fn read_message(alloc: Global, line: &[u8], caps: &Caps) -> Result<Effects, Unread>
    ensures { Reads caps.now line.now result }
{
    if line.len() > MAX_LINE {
        return Err(Unread::Long);
    }
    let bytes = bytes_in(alloc, without_return(line))?;
    effects_in(alloc, &bytes, caps)
}

// The bytes that a line holds in digits.
fn bytes_in(alloc: Global, text: &[u8]) -> Result<Vec<u8>, Unread>
    ensures ok { IfOk result (λ bytes. IsHexLine text.now bytes.items) }
    ensures err { IfErr result (ReadsHex text.now) }
{
    let digits = digits_in(text);
    if digits.is_empty() {
        return Err(Unread::Hex);
    }
    match decode(alloc, digits) {
        Ok(bytes) => Ok(bytes),
        Err(fault) => Err(unread_hex(fault)),
    }
}

// Why digits hold no bytes, as a fault of their line.
fn unread_hex(fault: FromHexError) -> Unread
    ensures { result ≡ unread_hex fault }
{
    match fault {
        FromHexError::OutOfMemory => Unread::NoMemory,
        _ => Unread::Hex,
    }
}

// The effects of a message.
fn effects_in(alloc: Global, bytes: &[u8], caps: &Caps) -> Result<Effects, Unread>
    ensures { ReadsBytes caps.now bytes.now result }
{
    match update_body(bytes, caps) {
        Some(body) => effects_of(alloc, body, caps),
        None => Err(Unread::Frame),
    }
}

// The effects of a body.
fn effects_of(alloc: Global, body: &[u8], caps: &Caps) -> Result<Effects, Unread>
    ensures { ReadsBody caps.now body.now result }
{
    match read_update(alloc, body, caps) {
        Ok(effects) => Ok(effects),
        Err(fault) => Err(unread_of(fault)),
    }
}

// Whether bytes are these.
fn is(bytes: &[u8], others: &[u8]) -> bool
    ensures { IsTrue result ↔ (bytes.now ≡ others.now) }
{
    bytes == others
}

// A fault of a body as one of its line.
fn unread_of(fault: UpdateFault) -> Unread
    ensures { result ≡ unread_of fault }
{
    match fault {
        UpdateFault::Attr(AttrFault::NoMemory) => Unread::NoMemory,
        fault => Unread::Update(fault),
    }
}
