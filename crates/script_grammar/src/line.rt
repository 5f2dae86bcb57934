//! Reads a line.
ghost use Rattle.std.specs.Prelude.{◌≡◌, None, option_map};
ghost use Rattle.script_grammar.specs.Events.{event_told, script_line_told};
ghost use Rattle.script_grammar.specs.Reading.{event_from, event_in, is_passed_over};
ghost use Rattle.script_grammar.specs.Reading.{script_line};

use crate::event::{Event, ScriptLine};
use crate::named::named_event;
use crate::names::{is, name_of};
use crate::operands::{first_word, is_blank_text};

/// How many bytes a line has at most, without its line feed.
pub const MAX_SCRIPT_LINE: usize = 65_600;

/// What a line of a script is, without its line feed. It takes no memory, and its work grows with the line's length.
///
/// One space parts words, and a carriage return is part of one. Numbers are decimal, without leading zeros. A line of
/// more than 65,600 bytes is bad, also where it is blank or begins with `#`.
#[tactic(auto, unfolding(crate::specs::Reading::script_line))]
pub fn read_script_line(line: &[u8]) -> ScriptLine<'_>
    ensures { script_line_told result ≡ script_line line.now }
{
    if line.len() > MAX_SCRIPT_LINE {
        return ScriptLine::Bad;
    }
    if is_passed_over(line) {
        return ScriptLine::PassedOver;
    }
    match event_in(line) {
        Some(event) => ScriptLine::Says(event),
        None => ScriptLine::Bad,
    }
}

// Whether a line is passed over.
fn is_passed_over(line: &[u8]) -> bool
    ensures { result ≡ is_passed_over line.now }
{
    match line.split_first() {
        Some((first, _)) if *first == b'#' => true,
        _ => is_blank_text(line),
    }
}

// The event that a line says.
#[tactic(auto, unfolding(crate::specs::Reading::event_in))]
fn event_in(line: &[u8]) -> Option<Event<'_>>
    ensures { option_map event_told result ≡ event_in line.now }
{
    let Some((word, rest)) = first_word(line) else {
        return control_in(line);
    };
    let Some(name) = name_of(word) else {
        return None;
    };
    named_event(name, rest)
}

// The one event without operands.
fn control_in(line: &[u8]) -> Option<Event<'_>>
    ensures { option_map event_told result ≡ event_from line.now None }
{
    if is(line, b"control") {
        return Some(Event::Control);
    }
    None
}
