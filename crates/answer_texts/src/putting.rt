//! Bytes and numbers, put behind what a buffer holds.
ghost use Rattle.std.specs.Prelude.{◌≡◌, ◌++◌, decimal, OnOk};
ghost use Rattle.answer_texts.specs.Texts.{IsPut, number_line, numbers_line};

use answers::NoMemory;
use arrayvec::ArrayVec;
use text_forms::{MAX_U64_TEXT, put_u64};

pub fn put(text: &mut Vec<u8>, bytes: &[u8]) -> Result<(), NoMemory>
    ensures text { OnOk result (text.new.items ≡ text.old.items ++ bytes.now) }
    ensures piece { OnOk result (IsPut text.old.items bytes.now text.new.items) }
{
    text.extend_from_slice(bytes)?;
    Ok(())
}

pub fn put_number(text: &mut Vec<u8>, number: u64) -> Result<(), NoMemory>
    ensures text { OnOk result (text.new.items ≡ text.old.items ++ decimal number) }
    ensures piece { OnOk result (IsPut text.old.items (decimal number) text.new.items) }
{
    let mut digits: ArrayVec<u8, MAX_U64_TEXT> = ArrayVec::new();
    put_u64(number, &mut digits);
    put(text, &digits)
}

/// Puts a line of some words and a number.
pub fn put_number_line(text: &mut Vec<u8>, words: &[u8], number: u64) -> Result<(), NoMemory>
    ensures { OnOk result (text.new.items ≡ text.old.items ++ number_line words.now number) }
{
    put(text, words)?;
    put_number(text, number)?;
    put(text, b"\n")?;
    Ok(())
}

/// Puts a line of some words and two numbers.
pub fn put_numbers_line(
    text: &mut Vec<u8>,
    words: &[u8],
    first: u64,
    second: u64,
) -> Result<(), NoMemory>
    ensures { OnOk result (text.new.items ≡ text.old.items
        ++ numbers_line words.now first second) }
{
    put(text, words)?;
    put_number(text, first)?;
    put(text, b" ")?;
    put_number(text, second)?;
    put(text, b"\n")?;
    Ok(())
}
