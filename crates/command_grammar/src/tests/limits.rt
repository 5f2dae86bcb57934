//! Lines at their limits, and one past them.
use super::is_answer;
use crate::{Command, read_command};
use route_grammar::LineFault::{self, BadToken, TooLong, TooMany};
use route_grammar::ReadFault;
use std::alloc::{AllocError, Global};
use std::test::Fail;

// A line with so many of the same element between a front and a back.
fn repeated(
    alloc: Global,
    front: &str,
    element: &str,
    count: u32,
    back: &str,
) -> Result<Vec<u8>, AllocError> {
    let mut line = Vec::new(alloc);
    line.extend_from_slice(front.as_bytes())?;
    for _ in 0..count {
        line.extend_from_slice(element.as_bytes())?;
    }
    line.extend_from_slice(back.as_bytes())?;
    Ok(line)
}

fn is_fault(read: &Result<Command, ReadFault>, fault: LineFault) -> bool {
    matches!(read, Err(ReadFault::Line(other)) if *other == fault)
}

// What stands before and behind the elements of each list, how many it may have, and the number of the token behind so
// many.
const LISTS: [(&str, &str, &str, u32, u32); 8] = [
    (
        "announce attributes next-hop self nlri",
        " 10.0.0.0/24",
        "",
        1_024,
        1_030,
    ),
    (
        "withdraw attributes nlri",
        " 2001:db8::/32",
        "",
        1_024,
        1_028,
    ),
    (
        "announce route 10.0.0.0/24 next-hop self as-path [",
        " 65001",
        " ]",
        255,
        263,
    ),
    (
        "announce route 10.0.0.0/24 next-hop self as-path [ (",
        " 65001",
        " ) ]",
        255,
        264,
    ),
    (
        "announce route 10.0.0.0/24 next-hop self community [",
        " 65001:1",
        " ]",
        200,
        208,
    ),
    (
        "announce route 10.0.0.0/24 next-hop self cluster-list [",
        " 192.0.2.1",
        " ]",
        32,
        40,
    ),
    (
        "announce route 10.0.0.0/24 next-hop self extended-community [",
        " target:65001:1",
        " ]",
        64,
        72,
    ),
    (
        "announce route 10.0.0.0/24 next-hop self large-community [",
        " 65001:1:2",
        " ]",
        64,
        72,
    ),
];

#[test]
fn a_list_ends_at_its_limit(rt: HostRuntime) -> Result<(), Fail> {
    for (front, element, back, limit, place) in LISTS {
        let full = repeated(rt.alloc(), front, element, limit, back)?;
        assert!(rt; read_command(rt.alloc(), &full).is_ok(), "{front}");

        let over = repeated(rt.alloc(), front, element, limit + 1, back)?;
        let read = read_command(rt.alloc(), &over);
        assert!(rt; is_fault(&read, TooMany { place, limit }), "{front}");
    }
    Ok(())
}

// Behind a full list only a further element is one too many.
const BEHIND: [(&str, &str, &str, u32, u32); 4] = [
    (
        "announce attributes next-hop self nlri",
        " 10.0.0.0/24",
        " ::/0",
        1_024,
        1_030,
    ),
    (
        "withdraw attributes nlri",
        " 10.0.0.0/24",
        " 10.0.0.1/24",
        1_024,
        1_028,
    ),
    (
        "announce route 10.0.0.0/24 next-hop self as-path [",
        " 65001",
        " (",
        255,
        263,
    ),
    (
        "announce route 10.0.0.0/24 next-hop self as-path [",
        " 65001",
        " x",
        255,
        263,
    ),
];

#[test]
fn what_is_no_element_is_not_one_too_many(rt: HostRuntime) -> Result<(), Fail> {
    for (front, element, back, limit, place) in BEHIND {
        let line = repeated(rt.alloc(), front, element, limit, back)?;
        let read = read_command(rt.alloc(), &line);
        assert!(rt; is_fault(&read, BadToken { place }), "{front}{back}");
    }
    Ok(())
}

#[test]
fn a_line_ends_at_65535_bytes(rt: HostRuntime) -> Result<(), Fail> {
    let longest = repeated(rt.alloc(), "# ", "x", 65_533, "")?;
    assert_eq!(rt; longest.len(), 65_535);
    let read = read_command(rt.alloc(), &longest);
    assert!(rt; matches!(read, Ok(Command::Comment)));

    let over = repeated(rt.alloc(), "# ", "x", 65_534, "")?;
    let read = read_command(rt.alloc(), &over);
    assert!(rt; is_fault(&read, TooLong));
    Ok(())
}
