//! Answers to a helper's events.
ghost use Rattle.std.specs.Prelude.{◌≡◌, ◌++◌, OnOk};
ghost use Rattle.answer_texts.specs.Texts.{fault_text, spawn_text, verdict_text, why_text};

use crate::putting::{put, put_number_line, put_numbers_line};
use answers::NoMemory;
use book_history::{Spawn, Verdict, Why};
use route_grammar::LineFault;

/// Puts whether a helper may be started.
pub fn put_spawn(text: &mut Vec<u8>, given: Spawn) -> Result<(), NoMemory>
    ensures { OnOk result (text.new.items ≡ text.old.items ++ spawn_text given) }
{
    match given {
        Spawn::Stopping => put(text, b"stopping\n"),
        Spawn::Absent => put(text, b"absent\n"),
        Spawn::Running => put(text, b"running\n"),
        Spawn::GiveUp => put(text, b"give-up\n"),
        Spawn::Go { inc, run: _run } => put_number_line(text, b"go ", inc),
    }
}

/// Puts what became of a line.
pub fn put_verdict(text: &mut Vec<u8>, given: Verdict) -> Result<(), NoMemory>
    ensures { OnOk result (text.new.items ≡ text.old.items ++ verdict_text given) }
{
    match given {
        Verdict::Ended => put(text, b"ended\n"),
        Verdict::Busy => put(text, b"busy\n"),
        Verdict::Error(why) => put_why(text, why),
        Verdict::Done => put(text, b"done\n"),
    }
}

// Puts why a line is refused.
fn put_why(text: &mut Vec<u8>, why: Why) -> Result<(), NoMemory>
    ensures { OnOk result (text.new.items ≡ text.old.items ++ why_text why) }
{
    match why {
        Why::Line(fault) => put_fault(text, fault),
        Why::NoMatch => put(text, b"error no-match\n"),
        Why::Full(number) => put_number_line(text, b"error full ", number),
        Why::Show(number) => put_number_line(text, b"error show ", number),
        Why::NoMemory => put(text, b"error memory\n"),
    }
}

// Puts the fault of a line.
fn put_fault(text: &mut Vec<u8>, fault: LineFault) -> Result<(), NoMemory>
    ensures { OnOk result (text.new.items ≡ text.old.items ++ fault_text fault) }
{
    match fault {
        LineFault::BadToken { place } => put_number_line(text, b"error token ", u64::from(place)),
        LineFault::TooMany { place, limit } => {
            put_numbers_line(text, b"error many ", u64::from(place), u64::from(limit))
        }
        LineFault::TooLong => put(text, b"error long\n"),
    }
}
