//! The laws of the grammar.
ghost use Rattle.route_values.specs.declared.addr.Family.{Family};
ghost use Rattle.update_grammar.specs.Laws.{HereIsSpelled, GoneIsSpelled, EndIsSpelled};
ghost use Rattle.update_grammar.specs.Laws.{MarkersDiffer, HereIsNoMarker, GoneIsNoMarker};
ghost use Rattle.update_grammar.specs.Laws.{ReadAttrsAreSpelled, SpelledAttrsAreRead};
ghost use Rattle.update_grammar.specs.Laws.{ReadEffectsAreSpelled, SpelledEffectsAreRead};
ghost use Rattle.update_grammar.specs.Laws.{EffectsAreOne};

/// What is written is spelled again as it was meant (RFC 4271, section 4.3; RFC 4760; RFC 7911, section 3).
///
/// It stands for keys that the session carries, for attributes that have a text, and for messages of at most 65,535
/// bytes. The function does nothing: its contract is the law.
///
/// - `here`: the body of an announcement spells one announcement of the same attributes a key, in order.
/// - `gone`: the body of a withdrawal spells one withdrawal a key, in order.
/// - `end`: the body of a marker spells no effect.
/// - `markers_differ`, `here_is_no_marker`, `gone_is_no_marker`: the text of a marker tells its family, and no
///   announcement and no withdrawal of at least one key has it.
pub fn written_is_spelled()
    ensures here { (family : Family) → HereIsSpelled family }
    ensures gone { (family : Family) → GoneIsSpelled family }
    ensures end { (family : Family) → EndIsSpelled family }
    ensures markers_differ { MarkersDiffer }
    ensures here_is_no_marker { HereIsNoMarker }
    ensures gone_is_no_marker { GoneIsNoMarker }
{}

/// Reading and spelling agree: a body, or its attributes, is read as just what it spells (RFC 4271, sections 4.3 and
/// 6.3). Where it spells nothing, reading gives the first fault. The function does nothing: its contract is the law.
///
/// - `attrs_found`, `attrs_only`: attributes are read as `said` exactly where they spell it.
/// - `effects_found`, `effects_only`: a body is read as `effects` exactly where it spells them.
/// - `one`: a body spells at most one list of effects.
pub fn reading_is_spelling()
    ensures attrs_found { ReadAttrsAreSpelled }
    ensures attrs_only { SpelledAttrsAreRead }
    ensures effects_found { ReadEffectsAreSpelled }
    ensures effects_only { SpelledEffectsAreRead }
    ensures one { EffectsAreOne }
{}
