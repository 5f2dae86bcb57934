//! Effects as lines.
ghost use Rattle.std.specs.Prelude.{◌≡◌, IfOk};
ghost use Rattle.update_grammar.specs.declared.effect.Effect.TheVariants.{Gone, Here};
ghost use Rattle.text_printer.specs.Printable.{Prints};
ghost use Rattle.text_printer.specs.Printing.{effect_text, key_tokens};
ghost use Rattle.text_printer.specs.Spaced.{GoesOn};

mod attributes;
mod items;
mod lists;
mod path;
mod tokens;
mod values;
mod writable;

use crate::fault::NoPrint;
use attributes::{put_attrs, put_key};
use route_values::{Items, Key, NoMemory, WireAttrs};
use std::alloc::Global;
use update_grammar::Effect;
use writable::is_writable;

/// A line, without its line feed. Contracts see it as a list of bytes.
pub type Printed = Items<u8>;

/// The command line that tells just this effect. It has fewer than 65,536 bytes where no list passes its limit.
pub fn print_effect(alloc: Global, effect: &Effect) -> Result<Printed, NoPrint>
    ensures { Prints effect.now result }
{
    match effect {
        Effect::Gone(key) => Ok(print_gone(alloc, key)?),
        Effect::Here(key, sent) => print_here(alloc, key, sent),
    }
}

/// The line that withdraws a key.
pub fn print_gone(alloc: Global, key: &Key) -> Result<Printed, NoMemory>
    ensures { IfOk result (λ line. line ≡ effect_text (Gone key.now)) }
{
    let text = begun(alloc, b"withdraw", key)?;
    Ok(Items::from_vec(text))
}

/// The line that announces a key with these attributes.
pub fn print_here(alloc: Global, key: &Key, sent: &WireAttrs) -> Result<Printed, NoPrint>
    ensures { Prints (Here key.now sent.now) result }
{
    if !is_writable(sent) {
        return Err(NoPrint::Unprintable);
    }
    Ok(here_line(alloc, key, sent)?)
}

fn here_line(alloc: Global, key: &Key, sent: &WireAttrs) -> Result<Printed, NoMemory>
    ensures { IfOk result (λ line. line ≡ effect_text (Here key.now sent.now)) }
{
    let mut text = begun(alloc, b"announce", key)?;
    put_attrs(&mut text, sent)?;
    Ok(Items::from_vec(text))
}

// A line that begins with this word and a key.
fn begun(alloc: Global, word: &[u8], key: &Key) -> Result<Vec<u8>, NoMemory>
    ensures { IfOk result (λ text. GoesOn (key_tokens key.now) word.now text.items) }
{
    let mut text = Vec::from_slice(alloc, word)?;
    put_key(&mut text, key)?;
    Ok(text)
}
