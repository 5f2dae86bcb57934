//! Lines, and what reading them gives.
use crate::{Command, ReadLine};
use route_grammar::LineFault::{BadToken, TooLong};
use route_grammar::{LineFault, ReadFault};
use route_values::{Hop, Keys, Pick, Selector};
use text_forms::{Line, prefix};

mod limits;
mod lines;

// What a line says, in a form that a table can hold. Prefixes are texts, each with its identifier.
#[derive(Clone, Copy)]
enum Said {
    Announce(&'static [Pick], &'static [(&'static str, u32)], Hop),
    Withdraw(&'static [Pick], &'static [(&'static str, u32)]),
    Flush(&'static [Pick]),
    Clear(&'static [Pick]),
    Show(&'static [Pick], Option<&'static str>),
    Teardown(&'static [Pick], u8),
    Reload,
    Shutdown,
    DisableAck,
    EnableAck,
    Comment,
}

// Whether a line was read as this, or has this fault.
fn is_answer(read: &Result<Command, ReadFault>, wanted: &Result<Said, LineFault>) -> bool {
    match (read, wanted) {
        (Ok(command), Ok(said)) => is_said(command, said),
        (Err(ReadFault::Line(fault)), Err(other)) => fault == other,
        _ => false,
    }
}

fn is_said(command: &Command, said: &Said) -> bool {
    match (command, said) {
        (Command::Announce { pick, keys, attrs }, Said::Announce(picks, texts, hop)) => {
            are_picks(pick, picks) && are_keys(keys, texts) && attrs.hop == *hop
        }
        (Command::Withdraw { pick, keys }, Said::Withdraw(picks, texts)) => {
            are_picks(pick, picks) && are_keys(keys, texts)
        }
        (Command::Flush(pick), Said::Flush(picks)) => are_picks(pick, picks),
        (Command::Clear(pick), Said::Clear(picks)) => are_picks(pick, picks),
        (Command::Show { pick, within }, Said::Show(picks, text)) => {
            are_picks(pick, picks) && *within == text.and_then(|text| prefix(text.as_bytes()))
        }
        (Command::Teardown(pick, code), Said::Teardown(picks, other)) => {
            are_picks(pick, picks) && code == other
        }
        (Command::Reload, Said::Reload)
        | (Command::Shutdown, Said::Shutdown)
        | (Command::DisableAck, Said::DisableAck)
        | (Command::EnableAck, Said::EnableAck)
        | (Command::Comment, Said::Comment) => true,
        _ => false,
    }
}

fn are_picks(selector: &Selector, picks: &[Pick]) -> bool {
    selector.as_slice() == picks
}

fn are_keys(keys: &Keys, texts: &[(&str, u32)]) -> bool {
    keys.len() == texts.len()
        && keys.as_slice().iter().zip(texts).all(|(key, (text, id))| prefix(text.as_bytes())
            == Some(key.prefix)
            && key.id == *id)
}

#[test]
fn a_line_is_kept_with_what_reading_it_gave(rt: HostRuntime) {
    let read = ReadLine::new(rt.alloc(), Line::Text(b"flush adj-rib out"));
    assert_eq!(rt; read.line(), Line::Text(b"flush adj-rib out"));
    assert!(rt; is_answer(read.reading(), &Ok(Said::Flush(&[]))));

    let faulty = ReadLine::new(rt.alloc(), Line::Text(b"flush adj-rib in"));
    assert!(rt; is_answer(faulty.reading(), &Err(BadToken { place: 3 })));

    let long = ReadLine::new(rt.alloc(), Line::TooLong);
    assert_eq!(rt; long.line(), Line::TooLong);
    assert!(rt; is_answer(long.reading(), &Err(TooLong)));
}
