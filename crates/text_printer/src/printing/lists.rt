//! Lists of values.
ghost use Rattle.std.specs.Prelude.{OnOk};
ghost use Rattle.text_printer.specs.Items.{listed, word_each};
ghost use Rattle.text_printer.specs.Spaced.{GoesOn};

use super::tokens::{put_mark, put_word};
use super::values::Wording;
use route_values::{Items, NoMemory};

/// Puts a word and a list between brackets, unless it is empty.
pub fn put_listed<W: Wording>(
    text: &mut Vec<u8>,
    name: &[u8],
    wording: &W,
    values: &Items<W::Value>,
) -> Result<(), NoMemory>
    ensures { OnOk result (GoesOn (listed name.now (W.word_of wording.now) values.now)
        text.old.items text.new.items) }
{
    let values = values.as_slice();
    if values.is_empty() {
        return Ok(());
    }
    put_word(text, name)?;
    put_mark(text, b'[')?;
    put_each(text, wording, values)?;
    put_mark(text, b']')?;
    Ok(())
}

/// Puts a word for each value.
pub fn put_each<W: Wording>(
    text: &mut Vec<u8>,
    wording: &W,
    values: &[W::Value],
) -> Result<(), NoMemory>
    ensures { OnOk result (GoesOn (word_each (W.word_of wording.now) values.now) text.old.items
        text.new.items) }
{
    for value in values {
        put_word(text, &wording.word(value))?;
    }
    Ok(())
}
