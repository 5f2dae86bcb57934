//! Items of a word and at most one operand.
ghost use Rattle.std.specs.Prelude.{OnOk, decimal};
ghost use Rattle.text_printer.specs.Items.{named, named_if, stands_if};
ghost use Rattle.text_printer.specs.Spaced.{GoesOn};

use super::tokens::put_word;
use super::values::{Wording, number_word};
use route_values::NoMemory;

/// Puts a word and its operand.
pub fn put_named(text: &mut Vec<u8>, name: &[u8], operand: &[u8]) -> Result<(), NoMemory>
    ensures { OnOk result (GoesOn (named name.now operand.now) text.old.items text.new.items) }
{
    put_word(text, name)?;
    put_word(text, operand)?;
    Ok(())
}

/// Puts a word and a number.
pub fn put_number(text: &mut Vec<u8>, name: &[u8], number: u32) -> Result<(), NoMemory>
    ensures { OnOk result (GoesOn (named name.now (decimal number)) text.old.items
        text.new.items) }
{
    put_named(text, name, &number_word(number))
}

/// Puts a word and a value, where it is present.
pub fn put_named_if<W: Wording>(
    text: &mut Vec<u8>,
    name: &[u8],
    wording: &W,
    value: &Option<W::Value>,
) -> Result<(), NoMemory>
    ensures { OnOk result (GoesOn (named_if name.now (W.word_of wording.now) value.now)
        text.old.items text.new.items) }
{
    match value {
        Some(value) => put_named(text, name, &wording.word(value)),
        None => Ok(()),
    }
}

/// Puts a word alone, where it stands.
pub fn put_if(text: &mut Vec<u8>, name: &[u8], stands: bool) -> Result<(), NoMemory>
    ensures { OnOk result (GoesOn (stands_if name.now stands) text.old.items text.new.items) }
{
    if stands { put_word(text, name) } else { Ok(()) }
}
