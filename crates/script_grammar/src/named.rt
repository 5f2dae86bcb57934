//! Events by their name and what stands behind it.
ghost use Rattle.std.specs.Prelude.{◌≡◌, option_map};
ghost use Rattle.script_grammar.specs.Events.{event_told};
ghost use Rattle.script_grammar.specs.Reading.{is_path, line_in, named_event};
ghost use Rattle.script_grammar.specs.Reading.{refresh_in, reload_in};
ghost use Rattle.script_grammar.specs.Reading.{up_in};

use crate::caps::caps_in;
use crate::event::Event;
use crate::names::{Name, family_of};
use crate::operands::{first_word, helper, helper_line, long, neighbor_in, numbered_in};

/// The event of this name with the operands that a text names.
pub fn named_event(name: Name, text: &[u8]) -> Option<Event<'_>>
    ensures { option_map event_told result ≡ named_event name text.now }
{
    match name {
        Name::Spawn => numbered_in(text).map(|is| Event::Spawn {
            h: is.h,
            now: is.number,
        }),
        Name::Line => line_in(text),
        Name::Take => numbered_in(text).map(|is| Event::Take {
            h: is.h,
            inc: is.number,
        }),
        Name::Deaf => numbered_in(text).map(|is| Event::Deaf {
            h: is.h,
            inc: is.number,
        }),
        Name::Gone => numbered_in(text).map(|is| Event::Gone {
            h: is.h,
            inc: is.number,
        }),
        Name::Peer => neighbor_in(text).map(|n| Event::Peer { n }),
        Name::Up => up_in(text),
        Name::Down => neighbor_in(text).map(|n| Event::Down { n }),
        Name::Refresh => refresh_in(text),
        Name::Cut => neighbor_in(text).map(|n| Event::Cut { n }),
        Name::Drain => neighbor_in(text).map(|n| Event::Drain { n }),
        Name::Reload => reload_in(text),
    }
}

// `line H INC TEXT`, behind its name.
#[tactic(auto, unfolding(crate::specs::Reading::line_in))]
fn line_in(text: &[u8]) -> Option<Event<'_>>
    ensures { option_map event_told result ≡ line_in text.now }
{
    let Some((slot, rest)) = first_word(text) else {
        return None;
    };
    let Some(h) = helper(slot) else {
        return None;
    };
    let Some((word, said)) = first_word(rest) else {
        return None;
    };
    let Some(inc) = long(word) else {
        return None;
    };
    let Some(line) = helper_line(said) else {
        return None;
    };
    Some(Event::Line { h, inc, line })
}

// `refresh N FAMILY`, behind its name.
#[tactic(auto, unfolding(crate::specs::Reading::refresh_in, crate::specs::Reading::neighbor_in))]
fn refresh_in(text: &[u8]) -> Option<Event<'_>>
    ensures { option_map event_told result ≡ refresh_in text.now }
{
    let Some((slot, word)) = first_word(text) else {
        return None;
    };
    let Some(n) = neighbor_in(slot) else {
        return None;
    };
    let Some(family) = family_of(word) else {
        return None;
    };
    Some(Event::Refresh { n, family })
}

// `up N CAP ..`, behind its name.
#[tactic(auto, unfolding(crate::specs::Reading::up_in, crate::specs::Reading::neighbor_in))]
fn up_in(text: &[u8]) -> Option<Event<'_>>
    ensures { option_map event_told result ≡ up_in text.now }
{
    let Some((slot, words)) = first_word(text) else {
        return None;
    };
    let Some(n) = neighbor_in(slot) else {
        return None;
    };
    let Some(caps) = caps_in(words) else {
        return None;
    };
    Some(Event::Up { n, caps })
}

// `reload PATH`, behind its name: one word, in UTF-8.
#[tactic(auto, unfolding(crate::specs::Reading::reload_in))]
fn reload_in(text: &[u8]) -> Option<Event<'_>>
    ensures { option_map event_told result ≡ reload_in text.now }
{
    if text.is_empty() || text.contains(&b' ') {
        return None;
    }
    match str::from_utf8(text) {
        Ok(path) => Some(Event::Reload { path }),
        Err(_) => None,
    }
}
