//! Streams that come in pieces of many sizes.
mod taking;

use crate::LineCutter;
use std::alloc::{AllocError, Global};
use std::test::Fail;
use text_forms::Line;

// Lines of all kinds, and one that isn't finished.
const STREAM: &[u8] =
    b"first\n\n \t \nsecond\r\n\r\nthird\r\r\n \r\n\tfourth \n\r\r\n\r \nx\n\n\ny\n  last";

// Its lines.
const LINES: [Line<'static>; 8] = [
    Line::Text(b"first"),
    Line::Text(b"second"),
    Line::Text(b"third\r"),
    Line::Text(b"\tfourth "),
    Line::Text(b"\r"),
    Line::Text(b"\r "),
    Line::Text(b"x"),
    Line::Text(b"y"),
];

// Lines near the limit: a byte, how often it stands there, and what follows it.
const LONG_LINES: [(u8, usize, &[u8]); 11] = [
    (b'x', 65_534, b"\n"),
    (b' ', 65_536, b"\n"),
    (b'x', 65_535, b"\n"),
    (b' ', 70_000, b"\r\n"),
    (b'x', 65_536, b"\n"),
    (b'x', 65_537, b"\n"),
    (b'x', 65_534, b"\r\n"),
    (b'x', 65_535, b"\r\n"),
    (b' ', 70_000, b"x\n"),
    (b'\t', 65_536, b"\r\t\n"),
    (b'x', 65_536, b""),
];

// In pieces of how many bytes they come.
const SIZES: [usize; 5] = [1, 4_096, 65_535, 65_536, usize::MAX];

fn letters(alloc: Global, count: usize) -> Result<Vec<u8>, AllocError> {
    let mut letters = Vec::new(alloc);
    letters.resize(count, b'x')?;
    Ok(letters)
}

fn long_lines(alloc: Global) -> Result<Vec<u8>, AllocError> {
    let mut bytes = Vec::new(alloc);
    for (fill, count, rest) in LONG_LINES {
        bytes.resize(bytes.len().saturating_add(count), fill)?;
        bytes.extend_from_slice(rest)?;
    }
    Ok(bytes)
}

// Whether a stream that comes in pieces of so many bytes has just these lines.
fn has_lines(cutter: &mut LineCutter, bytes: &[u8], size: usize, lines: &[Line<'_>]) -> bool {
    let mut rest = bytes;
    let mut number = 0;
    'pieces: for _ in 0..bytes.len() {
        let taken = cutter.feed(&rest[..rest.len().min(size)]);
        rest = &rest[taken..];
        let Some(line) = cutter.peek() else {
            continue;
        };
        let Some(wanted) = lines.get(number) else {
            return false;
        };
        if line != *wanted {
            return false;
        }
        number += 1;
        cutter.advance();
    }
    rest.is_empty() && number == lines.len()
}

#[test]
fn the_same_lines_are_cut_whatever_the_pieces(rt: HostRuntime) -> Result<(), Fail> {
    let mut cutter = LineCutter::new(rt.alloc())?;
    for size in 1..STREAM.len() + 1 {
        cutter.reset();
        assert!(rt; has_lines(&mut cutter, STREAM, size, &LINES), "{size}");
    }
    Ok(())
}

#[test]
fn a_line_has_65_535_bytes_at_most(rt: HostRuntime) -> Result<(), Fail> {
    let bytes = long_lines(rt.alloc())?;
    let shorter = letters(rt.alloc(), 65_534)?;
    let longest = letters(rt.alloc(), 65_535)?;
    let lines = [
        Line::Text(&shorter),
        Line::Text(&longest),
        Line::TooLong,
        Line::TooLong,
        Line::Text(&shorter),
        Line::TooLong,
        Line::TooLong,
        Line::TooLong,
    ];
    let mut cutter = LineCutter::new(rt.alloc())?;
    for size in SIZES {
        cutter.reset();
        assert!(rt; has_lines(&mut cutter, &bytes, size, &lines), "{size}");
    }
    Ok(())
}

#[test]
fn no_byte_is_taken_while_a_line_stands(rt: HostRuntime) -> Result<(), Fail> {
    let mut cutter = LineCutter::new(rt.alloc())?;
    assert_eq!(rt; cutter.feed(b" \n\na\nb\n"), 5);
    assert_eq!(rt; cutter.feed(b"b\n"), 0);
    assert!(rt; cutter.peek() == Some(Line::Text(b"a")));
    cutter.advance();
    assert!(rt; cutter.peek().is_none());
    assert_eq!(rt; cutter.feed(b"b\n"), 2);
    assert!(rt; cutter.peek() == Some(Line::Text(b"b")));
    Ok(())
}
