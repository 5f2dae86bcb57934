//! Lists as long as they may be, and longer ones.
use super::{has_fault, tokens};
use crate::LineFault::{BadToken, TooMany};
use crate::{LineFault, read_items};
use std::alloc::{AllocError, Global};
use std::test::Fail;

// A line with so many elements in a list.
fn line_of(
    alloc: Global,
    front: &str,
    element: &str,
    count: u32,
    back: &str,
) -> Result<Vec<u8>, AllocError> {
    let mut line = Vec::new(alloc);
    line.extend_from_slice(front.as_bytes())?;
    for _ in 0..count {
        line.extend_from_slice(element.as_bytes())?;
    }
    line.extend_from_slice(back.as_bytes())?;
    Ok(line)
}

// The front of a line, an element, how many of it follow, and the line's end; and the fault of the line.
const LISTS: [(&str, &str, u32, &str, Option<LineFault>); 19] = [
    ("community [", " 1:1", 200, " ]", None),
    (
        "community [",
        " 1:1",
        201,
        " ]",
        Some(TooMany {
            place: 203,
            limit: 200,
        }),
    ),
    (
        "community [",
        " 1:1",
        200,
        " 1 ]",
        Some(BadToken { place: 203 }),
    ),
    ("cluster-list [", " 0.0.0.1", 32, " ]", None),
    (
        "cluster-list [",
        " 0.0.0.1",
        33,
        " ]",
        Some(TooMany {
            place: 35,
            limit: 32,
        }),
    ),
    ("extended-community [", " target:1:1", 64, " ]", None),
    (
        "extended-community [",
        " target:1:1",
        65,
        " ]",
        Some(TooMany {
            place: 67,
            limit: 64,
        }),
    ),
    ("large-community [", " 1:1:1", 64, " ]", None),
    (
        "large-community [",
        " 1:1:1",
        65,
        " ]",
        Some(TooMany {
            place: 67,
            limit: 64,
        }),
    ),
    ("as-path [", " 1", 255, " ]", None),
    (
        "as-path [",
        " 1",
        256,
        " ]",
        Some(TooMany {
            place: 258,
            limit: 255,
        }),
    ),
    (
        "as-path [",
        " 1",
        255,
        " 0 ]",
        Some(BadToken { place: 258 }),
    ),
    (
        "as-path [",
        " 1",
        255,
        " ( 1 ) ]",
        Some(BadToken { place: 258 }),
    ),
    ("as-path [", " 1", 254, " ( 1 ) ]", None),
    (
        "as-path [",
        " 1",
        254,
        " ( 1 1 ) ]",
        Some(TooMany {
            place: 259,
            limit: 255,
        }),
    ),
    ("as-path [ (", " 1", 255, " ) ]", None),
    (
        "as-path [ (",
        " 1",
        256,
        " ) ]",
        Some(TooMany {
            place: 259,
            limit: 255,
        }),
    ),
    (
        "as-path [ (",
        " 1",
        255,
        " ) 1 ]",
        Some(TooMany {
            place: 260,
            limit: 255,
        }),
    ),
    (
        "as-path [ (",
        " 1",
        255,
        " ( ) ]",
        Some(BadToken { place: 259 }),
    ),
];

#[test]
fn a_list_is_read_up_to_its_limit(rt: HostRuntime) -> Result<(), Fail> {
    for (front, element, count, back, fault) in LISTS {
        let line = line_of(rt.alloc(), front, element, count, back)?;
        let read = read_items(rt.alloc(), &mut tokens(&line), None);
        let wanted = match fault {
            Some(fault) => has_fault(&read, fault),
            None => read.is_ok(),
        };
        assert!(rt; wanted, "{front} {count}");
    }
    Ok(())
}
