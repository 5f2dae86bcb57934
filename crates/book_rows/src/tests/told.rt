//! What events are answered, as texts.
use ack_queue::{REPLY_ROOM, Reply, put_reply};
use arrayvec::ArrayVec;
use book_core::{Control, Cut, Peer, Reload, Spawn, Take, Up, Verdict, Why};
use hex::encode_upper;
use route_values::Caps;
use std::alloc::Global;
use std::test::Fail;
use update_codec::read_update;

// What stands in front of each message (RFC 4271, section 4.1).
const MARKER: [u8; 16] = [0xFF; 16];

// Where the body of a message begins.
const HEADER_LEN: usize = 19;

pub fn said(alloc: Global, text: &str) -> Result<String, Fail> {
    Ok(String::from_str(alloc, text)?)
}

// Fails where two texts differ but for their blanks.
pub fn expect(alloc: Global, told: &str, wanted: &str) -> Result<(), Fail> {
    if squeezed(alloc, told)? == squeezed(alloc, wanted)? {
        return Ok(());
    }
    Err(Fail::new(format!(in alloc; "{told} in place of {wanted}")?))
}

// A text without its blanks.
fn squeezed(alloc: Global, text: &str) -> Result<Vec<u8>, Fail> {
    let mut bytes = Vec::new(alloc);
    'bytes: for byte in text.as_bytes() {
        if !byte.is_ascii_whitespace() {
            bytes.push(*byte)?;
        }
    }
    Ok(bytes)
}

pub fn of_spawn(alloc: Global, spawn: Spawn) -> Result<String, Fail> {
    match spawn {
        Spawn::Stopping => said(alloc, "stopping"),
        Spawn::Absent => said(alloc, "absent"),
        Spawn::Running => said(alloc, "running"),
        Spawn::GiveUp => said(alloc, "give-up"),
        Spawn::Go { inc, run: _run } => Ok(format!(in alloc; "go {inc}")?),
    }
}

pub fn of_line(alloc: Global, verdict: Verdict) -> Result<String, Fail> {
    match verdict {
        Verdict::Ended => said(alloc, "ended"),
        Verdict::Busy => said(alloc, "busy"),
        Verdict::Error(why) => of_refusal(alloc, why),
        Verdict::Done => said(alloc, "done"),
    }
}

fn of_refusal(alloc: Global, why: Why) -> Result<String, Fail> {
    match why {
        Why::Line(fault) => Ok(format!(in alloc; "{fault}")?),
        Why::NoMatch => said(alloc, "error no-match"),
        Why::Full(nodes) => Ok(format!(in alloc; "error full {nodes}")?),
        Why::Show(routes) => Ok(format!(in alloc; "error show {routes}")?),
        Why::NoMemory => said(alloc, "error memory"),
    }
}

pub fn of_take(alloc: Global, take: Take) -> Result<String, Fail> {
    match take {
        Take::Ended => said(alloc, "ended"),
        Take::Nothing => said(alloc, "nothing"),
        Take::Replies(replies) => of_replies(alloc, replies.as_slice()),
    }
}

// Each reply, with its line feed.
fn of_replies(alloc: Global, replies: &[Reply]) -> Result<String, Fail> {
    let mut text = Vec::new(alloc);
    let mut line = ArrayVec::<u8, REPLY_ROOM>::new();
    'replies: for reply in replies {
        put_reply(reply, &mut line);
        text.extend_from_slice(b"reply ")?;
        text.extend_from_slice(line.as_slice())?;
    }
    Ok(String::from_utf8(text)?)
}

pub fn of_count(alloc: Global, take: Take) -> Result<String, Fail> {
    match take {
        Take::Ended => said(alloc, "ended"),
        Take::Nothing => said(alloc, "nothing"),
        Take::Replies(replies) => {
            let count = replies.len();
            let word = kind_of(replies.as_slice());
            Ok(format!(in alloc; "{count} {word}")?)
        }
    }
}

// Whether each reply is `done`.
fn kind_of(replies: &[Reply]) -> &'static str {
    'replies: for reply in replies {
        if *reply != Reply::Done {
            return "replies";
        }
    }
    "done"
}

pub fn of_peer(alloc: Global, peer: Peer) -> Result<String, Fail> {
    match peer {
        Peer::Stopping => said(alloc, "stopping"),
        Peer::Absent => said(alloc, "absent"),
        Peer::Is(_) => said(alloc, "peer"),
    }
}

pub fn of_up(alloc: Global, up: Up) -> Result<String, Fail> {
    match up {
        Up::Stopping => said(alloc, "stopping"),
        Up::Stale => said(alloc, "stale"),
        Up::Ok => said(alloc, "up"),
    }
}

// With the message's bytes behind its marker.
pub fn of_cut(alloc: Global, cut: Cut, message: &[u8]) -> Result<String, Fail> {
    match cut {
        Cut::Message { last } => {
            let bytes = message.strip_prefix(&MARKER).ok_or("no marker")?;
            let digits = encode_upper(alloc, bytes)?;
            let word = order(last);
            Ok(format!(in alloc; "{word} {digits}")?)
        }
        _ => of_none(alloc, cut),
    }
}

// With the message's length, and how many IPv4 prefixes it announces.
pub fn of_measure(alloc: Global, cut: Cut, message: &[u8]) -> Result<String, Fail> {
    match cut {
        Cut::Message { last } => {
            let len = message.len();
            let prefixes = announced(alloc, message)?;
            let word = order(last);
            Ok(format!(in alloc; "{word} {len} bytes, {prefixes} prefixes")?)
        }
        _ => of_none(alloc, cut),
    }
}

// Whether a message is the last of its batch.
fn order(last: bool) -> &'static str {
    if last { "last" } else { "more" }
}

// How many prefixes a message announces.
fn announced(alloc: Global, message: &[u8]) -> Result<usize, Fail> {
    let body = message.get(HEADER_LEN..).ok_or("no header")?;
    let effects = read_update(alloc, body, &Caps::none())?;
    match effects.parts().here.first() {
        None => Ok(0),
        Some(here) => Ok(here.keys.len()),
    }
}

// An answer without a message.
fn of_none(alloc: Global, cut: Cut) -> Result<String, Fail> {
    match cut {
        Cut::Down => said(alloc, "down"),
        Cut::Reset { code, sub } => Ok(format!(in alloc; "reset {code} {sub}")?),
        Cut::Nothing => said(alloc, "nothing"),
        Cut::Message { .. } => said(alloc, "message"),
    }
}

// Such an answer behind so many messages.
pub fn of_silence(alloc: Global, count: u32, cut: Cut) -> Result<String, Fail> {
    let answer = of_none(alloc, cut)?;
    Ok(format!(in alloc; "{count} messages, {answer}")?)
}

pub fn of_control(alloc: Global, control: Control) -> Result<String, Fail> {
    match control {
        Control::Stop => said(alloc, "stop"),
        Control::ReloadDue => said(alloc, "reload-due"),
        Control::Nothing => said(alloc, "nothing"),
    }
}

pub fn of_reload(alloc: Global, reload: Reload) -> Result<String, Fail> {
    match reload {
        Reload::Full(nodes) => Ok(format!(in alloc; "full {nodes}")?),
        Reload::NoMemory => said(alloc, "memory"),
        Reload::Ok => said(alloc, "reloaded"),
    }
}
