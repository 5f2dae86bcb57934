//! The law of a script's lines.
ghost use Rattle.script_grammar.specs.Laws.{EventsAreSpelled, EventsHaveSlots};
ghost use Rattle.script_grammar.specs.Laws.{SpelledEventsAreRead};

/// The event that a line is read to is just the one that it spells, by words with one space between each two. The
/// function does nothing: its contract is the law.
///
/// - `found`: an event that is read is spelled by its line.
/// - `only`: an event that a line spells is read. So a line spells one event at most.
/// - `slots`: a helper slot that is read is below 16, and a neighbour slot below 64.
pub fn script_lines_say_one()
    ensures found { EventsAreSpelled }
    ensures only { SpelledEventsAreRead }
    ensures slots { EventsHaveSlots }
{}
