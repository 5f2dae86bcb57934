//! How `encode` ends, and that both its forms answer lines and then make messages.
use super::*;
use arrayvec::ArrayVec;
use outside::{HeldFile, MemoryFiles};

const FILES: [HeldFile<'static>; 3] = [
    HeldFile {
        path: "two.conf",
        content: b"process h { run /bin/cat; } process g { run /bin/cat; }\n\
            neighbor 192.0.2.2 { local-address 192.0.2.9; local-as 65001; peer-as 65002;\n\
            family { ipv4 unicast; } api { processes [ h ]; } }\n\
            neighbor 192.0.2.3 { local-address 192.0.2.9; local-as 65001; peer-as 65001;\n\
            family { ipv4 unicast; } api { processes [ g h ]; } }\n",
    },
    HeldFile {
        path: "none.conf",
        content: b"neighbor 192.0.2.2 { local-address 192.0.2.9;\n\
            local-as 65001; peer-as 65002; }\n",
    },
    HeldFile {
        path: "wrong.conf",
        content: b"process h { }\n",
    },
];

// The calls that fail: of opening files, of reading the lines, and of writing.
#[derive(Clone, Copy)]
struct Failing<'a> {
    opens: &'a [u64],
    reads: &'a [u64],
    writes: &'a [u64],
}

const NONE: Failing<'static> = Failing {
    opens: &[],
    reads: &[],
    writes: &[],
};

// Words, lines, the calls that fail, the line for standard error, and what was written, with `M` for a marker.
#[derive(Clone, Copy)]
struct Row {
    case: &'static str,
    words: &'static [&'static str],
    lines: &'static str,
    failing: Failing<'static>,
    line: &'static str,
    output: &'static str,
}

const EXTERNAL: [&str; 4] = ["encode", "65001", "65002", "192.0.2.9"];

const ROWS: [Row; 8] = [
    Row {
        case: "a neighbour of another AS",
        words: &EXTERNAL,
        lines: "announce route 10.0.0.0/24 next-hop 192.0.2.1\n# x\n\
            announce route 10.0.1.0/24 next-hop self\n",
        failing: NONE,
        line: "",
        output: "done\ndone\ndone\n\
            update 0 more M002F02000000144001010040020602010000FDE9400304C0000201180A0000\n\
            update 0 more M002F02000000144001010040020602010000FDE9400304C0000209180A0001\n\
            update 0 last M00170200000000\n",
    },
    Row {
        case: "a neighbour of the own AS",
        words: &["encode", "65001", "65001", "192.0.2.9"],
        lines: ROUTE,
        failing: NONE,
        line: "",
        output: "done\n\
            update 0 more M0030020000001540010100400200400304C000020140050400000064180A0000\n\
            update 0 last M00170200000000\n",
    },
    Row {
        case: "the neighbours of a file, of which a line ends the second one's session",
        words: &["encode", "two.conf"],
        lines: "announce route 10.0.0.0/24 next-hop 192.0.2.1\n\
            neighbor 192.0.2.3 teardown 4\nannounce route\n",
        failing: NONE,
        line: "",
        output: "done\ndone\nerror\n\
            update 0 more M002F02000000144001010040020602010000FDE9400304C0000201180A0000\n\
            update 0 last M00170200000000\nreset 6 4\n",
    },
    Row {
        case: "a file without a process",
        words: &["encode", "none.conf"],
        lines: ROUTE,
        failing: NONE,
        line: "exabgp: configuration 0:0 no-process\n",
        output: "",
    },
    Row {
        case: "a file that is no configuration",
        words: &["encode", "wrong.conf"],
        lines: ROUTE,
        failing: NONE,
        line: "exabgp: configuration 1:13 missing\n",
        output: "",
    },
    Row {
        case: "a file that can't be opened",
        words: &["encode", "two.conf"],
        lines: ROUTE,
        failing: Failing {
            opens: &[0],
            ..NONE
        },
        line: "exabgp: configuration not read\n",
        output: "",
    },
    Row {
        case: "a read behind a line that fails",
        words: &EXTERNAL,
        lines: ROUTE,
        failing: Failing {
            reads: &[1],
            ..NONE
        },
        line: "exabgp: read fault\n",
        output: "done\n",
    },
    Row {
        case: "a write that fails",
        words: &EXTERNAL,
        lines: ROUTE,
        failing: Failing {
            writes: &[1],
            ..NONE
        },
        line: "exabgp: write fault\n",
        output: "done\n",
    },
];

// How `encode` ended: its line for standard error, what it wrote, and how many sources weren't given back.
#[derive(Drop)]
struct Encoded {
    line: String,
    output: String,
    lent: Option<u64>,
}

fn encode(alloc: Global, row: Row) -> Result<Encoded, Fail> {
    let mut files = MemoryFiles::new(&FILES, row.failing.opens, &[]);
    let mut source = MemorySource::new(row.lines.as_bytes(), row.failing.reads);
    let mut sink = MemorySink::new(alloc, ROOM, row.failing.writes)?;
    let status = exabgp_text(alloc, row.words, &mut files, &mut source, &mut sink);
    let mut line = ArrayVec::new();
    status.put_line(&mut line);
    let bytes = sink.bytes().ok_or("the sink has room")?;
    Ok(Encoded {
        line: String::from_utf8(Vec::from_slice(alloc, &line)?)?,
        output: String::from_utf8(Vec::from_slice(alloc, bytes)?)?,
        lent: files.lent(),
    })
}

// A text in which `M` stands for a marker.
fn written(alloc: Global, text: &str) -> Result<String, Fail> {
    let mut whole = String::new(alloc);
    for c in text.chars() {
        if c == 'M' {
            whole.push_str("FFFFFFFFFFFFFFFFFFFFFFFFFFFFFFFF")?;
        } else {
            whole.push(c)?;
        }
    }
    Ok(whole)
}

#[test]
fn lines_are_answered_and_then_messages_come_for_each_neighbour(
    rt: HostRuntime,
) -> Result<(), Fail> {
    for row in ROWS {
        let done = encode(rt.alloc(), row)?;
        let wanted = written(rt.alloc(), row.output)?;
        assert_eq!(rt; done.line.as_str(), row.line, "{}", row.case);
        assert_eq!(rt; done.output.as_str(), wanted.as_str(), "{}", row.case);
        assert!(rt; done.lent == Some(0), "{}", row.case);
    }
    Ok(())
}
