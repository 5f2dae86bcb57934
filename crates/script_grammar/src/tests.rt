//! Lines of scripts: events, lines that are passed over, and lines that are in no production.
use crate::{Event, ScriptLine, read_script_line};

const BAD: [&[u8]; 25] = [
    b"cut 64",
    b"spawn 16 0",
    b"spawn 0",
    b"spawn 0 ",
    b"spawn 0  0",
    b"spawn 0 01",
    b"spawn 0 18446744073709551616",
    b"spawn 0 0 0",
    b"line 0 1",
    b"line 0 1 \t",
    b"refresh 0 ipv5",
    b"up 0",
    b"up 0 ",
    b"up 0 ipv4 ipv4",
    b"up 0 ipv4-path",
    b"up 0 ipv4 ipv6-path",
    b"up 0 ipv4 ",
    b"control ",
    b"Control",
    b"reload ",
    b"reload a b",
    b"reload \xff",
    b" cut 0",
    b"cut 0\r",
    b"\r",
];

const PASSED_OVER: [&[u8]; 4] = [b"", b" \t", b"# x", b"#"];

const BLANKS: [u8; 65_601] = [b' '; 65_601];

// Which event a line says, its slot, and its second number, if it has one.
fn told(line: &[u8]) -> (&'static str, usize, u64) {
    match read_script_line(line) {
        ScriptLine::PassedOver => ("passed over", 0, 0),
        ScriptLine::Bad => ("bad", 0, 0),
        ScriptLine::Says(event) => told_of(event),
    }
}

fn told_of(event: Event<'_>) -> (&'static str, usize, u64) {
    match event {
        Event::Spawn { h, now } => ("spawn", h, now),
        Event::Line { h, inc, line: _ } => ("line", h, inc),
        Event::Take { h, inc } => ("take", h, inc),
        Event::Deaf { h, inc } => ("deaf", h, inc),
        Event::Gone { h, inc } => ("gone", h, inc),
        Event::Peer { n } => ("peer", n, 0),
        Event::Up { n, caps: _ } => ("up", n, 0),
        Event::Down { n } => ("down", n, 0),
        Event::Refresh { n, family: _ } => ("refresh", n, 0),
        Event::Cut { n } => ("cut", n, 0),
        Event::Drain { n } => ("drain", n, 0),
        Event::Control => ("control", 0, 0),
        Event::Reload { path: _ } => ("reload", 0, 0),
    }
}

#[test]
fn a_line_says_its_event(rt: HostRuntime) {
    assert_eq!(rt;
        told(b"spawn 15 18446744073709551615"),
        ("spawn", 15, u64::MAX)
    );
    assert_eq!(rt; told(b"line 0 1 # x"), ("line", 0, 1));
    assert_eq!(rt; told(b"take 0 1"), ("take", 0, 1));
    assert_eq!(rt; told(b"deaf 1 2"), ("deaf", 1, 2));
    assert_eq!(rt; told(b"gone 2 3"), ("gone", 2, 3));
    assert_eq!(rt; told(b"peer 63"), ("peer", 63, 0));
    assert_eq!(rt; told(b"up 1 ipv4-path extended ipv6 ipv4"), ("up", 1, 0));
    assert_eq!(rt; told(b"down 0"), ("down", 0, 0));
    assert_eq!(rt; told(b"refresh 1 ipv6"), ("refresh", 1, 0));
    assert_eq!(rt; told(b"cut 0"), ("cut", 0, 0));
    assert_eq!(rt; told(b"drain 10"), ("drain", 10, 0));
    assert_eq!(rt; told(b"control"), ("control", 0, 0));
    assert_eq!(rt; told(b"reload one.conf"), ("reload", 0, 0));
}

#[test]
fn a_line_in_no_production_is_bad(rt: HostRuntime) {
    for (n, line) in BAD.iter().enumerate() {
        assert_eq!(rt; told(line).0, "bad", "{n}");
    }
}

#[test]
fn blank_lines_and_remarks_are_passed_over_up_to_65600_bytes(rt: HostRuntime) {
    for (n, line) in PASSED_OVER.iter().enumerate() {
        assert_eq!(rt; told(line).0, "passed over", "{n}");
    }
    assert_eq!(rt; told(&BLANKS[1..]).0, "passed over");
    assert_eq!(rt; told(&BLANKS).0, "bad");
}
