//! A stream of messages of all types, which comes in pieces.
use super::*;

// Types and whole lengths of messages, over and over.
const TABLE: [(u8, u16); 10] = [
    (OPEN, 29),
    (KEEPALIVE, 19),
    (UPDATE, 23),
    (UPDATE, 4096),
    (NOTIFICATION, 21),
    (ROUTE_REFRESH, 23),
    (UPDATE, 1000),
    (NOTIFICATION, 4096),
    (KEEPALIVE, 19),
    (OPEN, 4096),
];

// How many messages the stream has.
const MESSAGES: usize = 300;

// In which pieces a stream comes.
#[derive(Clone, Copy, Debug)]
enum Cut {
    // Of so many bytes.
    Every(usize),
    // Each a message.
    AtMessages,
}

const CUTS: [Cut; 8] = [
    Cut::Every(1),
    Cut::Every(18),
    Cut::Every(19),
    Cut::Every(20),
    Cut::Every(4_097),
    Cut::Every(65_535),
    Cut::Every(usize::MAX),
    Cut::AtMessages,
];

// The type, the whole length and each byte of the body of a message of the stream.
fn message(number: usize) -> (u8, u16, u8) {
    let (kind, len) = TABLE[number % TABLE.len()];
    (kind, len, (number % 256) as u8)
}

fn stream(alloc: Global) -> Result<Vec<u8>, NoMemory> {
    let mut bytes = Vec::new(alloc);
    for number in 0..MESSAGES {
        let (kind, len, fill) = message(number);
        let end = bytes.len().saturating_add(len.into());
        bytes.extend_from_slice(&[0xFF; 16])?;
        bytes.extend_from_slice(&len.to_be_bytes())?;
        bytes.push(kind)?;
        bytes.resize(end, fill)?;
    }
    Ok(bytes)
}

// Whether a message is the one that was written.
fn is_written(number: usize, kind: u8, body: &[u8]) -> bool {
    let (wanted, len, fill) = message(number);
    kind == wanted && HEADER_LEN + body.len() == len.into() && body.iter().all(|b| *b == fill)
}

// Passes the whole messages that are as they were written, and answers the number of the first that isn't.
fn pass_whole(cutter: &mut FrameCutter, first: usize) -> usize {
    for number in first..MESSAGES {
        match cutter.peek() {
            Next::Frame { kind, body } if is_written(number, kind, body) => (),
            _ => return number,
        }
        cutter.advance();
    }
    MESSAGES
}

#[test]
fn the_same_messages_are_cut_whatever_the_pieces(rt: HostRuntime) -> Result<(), Fail> {
    let bytes = stream(rt.alloc())?;
    let mut cutter = FrameCutter::new(rt.alloc())?;
    for cut in CUTS {
        cutter.reset();
        let mut rest = bytes.as_slice();
        let mut number = 0;
        for _ in 0..bytes.len() {
            let size = match cut {
                Cut::Every(size) => size,
                Cut::AtMessages => message(number).1.into(),
            };
            let taken = cutter.feed(&rest[..rest.len().min(size)]);
            rest = &rest[taken..];
            number = pass_whole(&mut cutter, number);
        }
        assert_eq!(rt; number, MESSAGES, "{cut:?}");
        assert!(rt; rest.is_empty(), "{cut:?}");
        assert!(rt; cutter.peek() == Next::NotYet, "{cut:?}");
    }
    Ok(())
}

#[test]
fn the_longest_message_is_cut_whole(rt: HostRuntime) -> Result<(), Fail> {
    let mut bytes = Vec::from_slice(rt.alloc(), WHOLE_KEEPALIVE)?;
    bytes.extend_from_slice(&[0xFF; 18])?;
    bytes.push(UPDATE)?;
    bytes.resize(HEADER_LEN + MAX_LONG_LEN, 7)?;
    let mut cutter = FrameCutter::new(rt.alloc())?;
    let taken = cutter.feed(&bytes);
    assert_eq!(rt; taken, MAX_LONG_LEN);
    if let Next::Frame { .. } = cutter.peek() {
        cutter.widen();
    }
    cutter.advance();
    assert!(rt; cutter.peek() == Next::NotYet);
    assert_eq!(rt; cutter.feed(&bytes[taken..]), HEADER_LEN);
    let Next::Frame { kind: UPDATE, body } = cutter.peek() else {
        return Err("no update".into());
    };
    assert_eq!(rt; body.len(), MAX_LONG_LEN - HEADER_LEN);
    Ok(())
}
