//! The lines of the effects of a message.
ghost use Rattle.std.specs.Prelude.{◌≡◌, [], ◌∷◌};
ghost use Rattle.std.specs.List.{flat_map};
ghost use Rattle.outside.specs.Seen.{sink_seen};
ghost use Rattle.update_grammar.specs.declared.effect.Effect.TheVariants.{Gone, Here};
ghost use Rattle.update_grammar.specs.Update.{gone_all, here_all};
ghost use Rattle.update_codec.specs.Effects.{announced_effects};
ghost use Rattle.text_printer.specs.Refusals.{unprintable_text};
ghost use Rattle.message_decoder.specs.Decoding.{AreEffectLines, ended};
ghost use Rattle.message_decoder.specs.Streams.{Writes};

use crate::halt::Halt;
use crate::writing::write_line;
use outside::Sink;
use route_values::{Items, Key, WireAttrs};
use std::alloc::Global;
use text_printer::{NoPrint, print_gone, print_here};
use update_codec::{Announced, Effects};

// What stands in the place of an effect that no command can write.
const UNPRINTABLE: &[u8] = b"# unprintable";

/// Writes a line for each effect, in order. It holds one of them at a time.
pub fn write_effects<K: Sink>(alloc: Global, effects: &Effects, output: &mut K) -> Result<(), Halt>
    ensures { Writes (AreEffectLines effects.now) (sink_seen K.taken K.faults output.old)
        (sink_seen K.taken K.faults output.new) result }
{
    let parts = effects.parts();
    write_gone(alloc, parts.gone, output)?;
    write_here(alloc, parts.here, output)
}

fn write_gone<K: Sink>(alloc: Global, keys: &[Key], output: &mut K) -> Result<(), Halt>
    ensures { Writes (AreEffectLines (gone_all keys.now)) (sink_seen K.taken K.faults output.old)
        (sink_seen K.taken K.faults output.new) result }
{
    'keys: for key in keys {
        write_gone_line(alloc, key, output)?;
    }
    Ok(())
}

fn write_gone_line<K: Sink>(alloc: Global, key: &Key, output: &mut K) -> Result<(), Halt>
    ensures { Writes (AreEffectLines (Gone key.now ∷ []))
        (sink_seen K.taken K.faults output.old) (sink_seen K.taken K.faults output.new) result }
{
    write_line(output, print_gone(alloc, key)?)
}

fn write_here<K: Sink>(alloc: Global, here: &[Announced], output: &mut K) -> Result<(), Halt>
    ensures { Writes (AreEffectLines (flat_map announced_effects here.now))
        (sink_seen K.taken K.faults output.old) (sink_seen K.taken K.faults output.new) result }
{
    'announced: for announced in here {
        write_keys(alloc, &announced.attrs, announced.keys.as_slice(), output)?;
    }
    Ok(())
}

// The lines of keys that are announced with the same attributes.
fn write_keys<K: Sink>(
    alloc: Global,
    sent: &WireAttrs,
    keys: &[Key],
    output: &mut K,
) -> Result<(), Halt>
    ensures { Writes (AreEffectLines (here_all sent.now keys.now))
        (sink_seen K.taken K.faults output.old) (sink_seen K.taken K.faults output.new) result }
{
    'keys: for key in keys {
        write_here_line(alloc, key, sent, output)?;
    }
    Ok(())
}

fn write_here_line<K: Sink>(
    alloc: Global,
    key: &Key,
    sent: &WireAttrs,
    output: &mut K,
) -> Result<(), Halt>
    ensures { Writes (AreEffectLines (Here key.now sent.now ∷ []))
        (sink_seen K.taken K.faults output.old) (sink_seen K.taken K.faults output.new) result }
{
    match print_here(alloc, key, sent) {
        Ok(line) => write_line(output, line),
        Err(NoPrint::Unprintable) => write_unprintable(alloc, output),
        Err(NoPrint::NoMemory) => Err(Halt::Memory),
    }
}

fn write_unprintable<K: Sink>(alloc: Global, output: &mut K) -> Result<(), Halt>
    ensures { Writes (λ text. text ≡ ended unprintable_text)
        (sink_seen K.taken K.faults output.old) (sink_seen K.taken K.faults output.new) result }
{
    let remark = Vec::from_slice(alloc, UNPRINTABLE)?;
    write_line(output, Items::from_vec(remark))
}
