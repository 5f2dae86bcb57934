//! The law of printing.
ghost use Rattle.text_printer.specs.Laws.{LinesAreShort, LinesHaveReadings, LinesKeepNet};
ghost use Rattle.text_printer.specs.Laws.{LinesHaveTheirTokens, LinesReadBack};
ghost use Rattle.text_printer.specs.Laws.{SpelledAreEffects};

/// The line of an effect says just that effect: the grammar of commands reads it, in one way, as the announcement or
/// withdrawal of the effect's key, with its attributes as a command writes them.
///
/// It stands for effects that a message can have, and that can be printed. The function does nothing: its contract is
/// the law.
///
/// - `effects`: what the body of an UPDATE spells are such effects.
/// - `tokens`: the line is cut into just the tokens that it was printed from.
/// - `reads`: the tokens are read as a command that tells just what the effect does.
/// - `short`: the line has at most 65,535 bytes, so that it isn't too long for a command line.
/// - `reads_back`: whatever reading the line gives is such a command, unless memory is wanting.
/// - `net`: what the lines of effects tell leaves at each key what the effects leave there.
pub fn lines_read_back()
    ensures effects { SpelledAreEffects }
    ensures tokens { LinesHaveTheirTokens }
    ensures reads { LinesHaveReadings }
    ensures short { LinesAreShort }
    ensures reads_back { LinesReadBack }
    ensures net { LinesKeepNet }
{}
