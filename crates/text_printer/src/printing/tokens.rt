//! Tokens at the end of a text, each behind one space.
ghost use Rattle.std.specs.Prelude.{[], ◌∷◌, OnOk};
ghost use Rattle.token_reader.specs.Tokens.{Mark, Word};
ghost use Rattle.text_printer.specs.Spaced.{GoesOn};

use route_values::NoMemory;

// What stands between two tokens.
const SPACE: u8 = b' ';

/// Puts a word.
pub fn put_word(text: &mut Vec<u8>, word: &[u8]) -> Result<(), NoMemory>
    ensures { OnOk result (GoesOn (Word word.now ∷ []) text.old.items text.new.items) }
{
    text.push(SPACE)?;
    text.extend_from_slice(word)?;
    Ok(())
}

/// Puts a sign that is a token by itself.
pub fn put_mark(text: &mut Vec<u8>, sign: u8) -> Result<(), NoMemory>
    ensures { OnOk result (GoesOn (Mark sign ∷ []) text.old.items text.new.items) }
{
    text.push(SPACE)?;
    text.push(sign)?;
    Ok(())
}
