//! How `play` ends, by its files, its script and what fails.
use super::*;
use arrayvec::ArrayVec;
use outside::{HeldFile, MemoryFiles};

const FILES: [HeldFile<'static>; 2] = [
    HeldFile {
        path: "one.conf",
        content: b"process h { run /bin/cat; }\n\
            neighbor 192.0.2.2 { local-address 192.0.2.9; local-as 65001; peer-as 65002;\n\
            api { processes [ h ]; } }\n",
    },
    HeldFile {
        path: "wrong.conf",
        content: b"process h { }\n",
    },
];

// How `play` ended, its line for standard error, what it wrote, and how many sources weren't given back.
#[derive(Drop)]
struct Played {
    status: Status,
    line: String,
    output: String,
    lent: Option<u64>,
}

// The calls that fail: of opening files, of reading the script, and of writing.
#[derive(Clone, Copy)]
struct Failing<'a> {
    opens: &'a [u64],
    reads: &'a [u64],
    writes: &'a [u64],
}

const NONE: Failing<'static> = Failing {
    opens: &[],
    reads: &[],
    writes: &[],
};

// Plays a script over the file at a path. The sink takes five bytes a call.
fn play(alloc: Global, path: &str, script: &str, failing: Failing<'_>) -> Result<Played, Fail> {
    let mut files = MemoryFiles::new(&FILES, failing.opens, &[]);
    let mut source = MemorySource::new(script.as_bytes(), failing.reads);
    let mut sink = MemorySink::in_steps(alloc, ROOM, 5, failing.writes)?;
    let words = ["play", path];
    let status = exabgp_text(alloc, &words, &mut files, &mut source, &mut sink);
    let mut line = ArrayVec::new();
    status.put_line(&mut line);
    let bytes = sink.bytes().ok_or("the sink has room")?;
    Ok(Played {
        status,
        line: String::from_utf8(Vec::from_slice(alloc, &line)?)?,
        output: String::from_utf8(Vec::from_slice(alloc, bytes)?)?,
        lent: files.lent(),
    })
}

// A session comes up, gets a route, and is told that it goes.
const SCRIPT: &str = "# a helper, and a session\n\
    spawn 0 0\n\
    peer 0\n\
    up 0 ipv4\n\
    \n\
    line 0 1 announce route 10.0.0.0/24 next-hop 192.0.2.1\n\
    drain 0\n\
    line 0 1 withdraw route 10.0.0.0/24\n\
    drain 0\n\
    take 0 1";

const ANSWERS: &str = "go 1\n\
    peer\n\
    up\n\
    done\n\
    update 0 more FFFFFFFFFFFFFFFFFFFFFFFFFFFFFFFF002F02\
    00000014\
    40010100\
    40020602010000FDE9\
    400304C0000201\
    180A0000\n\
    update 0 last FFFFFFFFFFFFFFFFFFFFFFFFFFFFFFFF00170200000000\n\
    nothing\n\
    done\n\
    update 0 last FFFFFFFFFFFFFFFFFFFFFFFFFFFFFFFF001B020004180A00000000\n\
    nothing\n\
    reply done\n\
    reply done\n";

#[test]
fn each_event_of_a_script_is_answered(rt: HostRuntime) -> Result<(), Fail> {
    let done = play(rt.alloc(), "one.conf", SCRIPT, NONE)?;
    assert_eq!(rt; done.status, Status::Ok);
    assert_eq!(rt; done.output.as_str(), ANSWERS);
    let empty = play(rt.alloc(), "one.conf", "", NONE)?;
    assert_eq!(rt; empty.status, Status::Ok);
    assert_eq!(rt; empty.output.as_str(), "");
    Ok(())
}

// A script, the calls that fail, the line for standard error, and what was written.
#[derive(Clone, Copy)]
struct Row {
    case: &'static str,
    path: &'static str,
    script: &'static str,
    failing: Failing<'static>,
    line: &'static str,
    output: &'static str,
}

const ROWS: [Row; 9] = [
    Row {
        case: "a line in no production",
        path: "one.conf",
        script: "spawn 0 0\n\npeer 0\nspawn 16 0\ncontrol\n",
        failing: NONE,
        line: "exabgp: script 4\n",
        output: "go 1\npeer\n",
    },
    Row {
        case: "a last line without a line feed in no production",
        path: "one.conf",
        script: "control\ncontrols",
        failing: NONE,
        line: "exabgp: script 2\n",
        output: "nothing\n",
    },
    Row {
        case: "a session without settings",
        path: "one.conf",
        script: "up 0 ipv4\n",
        failing: NONE,
        line: "exabgp: script 1\n",
        output: "",
    },
    Row {
        case: "a file that is no configuration",
        path: "wrong.conf",
        script: SCRIPT,
        failing: NONE,
        line: "exabgp: configuration 1:13 missing\n",
        output: "",
    },
    Row {
        case: "a file that can't be opened",
        path: "one.conf",
        script: SCRIPT,
        failing: Failing {
            opens: &[0],
            ..NONE
        },
        line: "exabgp: configuration not read\n",
        output: "",
    },
    Row {
        case: "a file that can't be opened for a reload",
        path: "one.conf",
        script: "control\nreload one.conf\nreload wrong.conf\nreload one.conf\n",
        failing: Failing {
            opens: &[3],
            ..NONE
        },
        line: "exabgp: configuration not read\n",
        output: "nothing\nreloaded\nrefused 1:13 missing\n",
    },
    Row {
        case: "a first read of the script that fails",
        path: "one.conf",
        script: SCRIPT,
        failing: Failing {
            reads: &[0],
            ..NONE
        },
        line: "exabgp: read fault\n",
        output: "",
    },
    Row {
        case: "a read behind the whole script that fails",
        path: "one.conf",
        script: "spawn 0 0\ncontrol\nspawn 0 0",
        failing: Failing {
            reads: &[1],
            ..NONE
        },
        line: "exabgp: read fault\n",
        output: "go 1\nnothing\n",
    },
    Row {
        case: "a write that fails",
        path: "one.conf",
        script: "spawn 0 0\ncontrol\nspawn 0 0",
        failing: Failing {
            writes: &[2],
            ..NONE
        },
        line: "exabgp: write fault\n",
        output: "go 1\nnothi",
    },
];

#[test]
fn what_stops_a_script_decides_the_status(rt: HostRuntime) -> Result<(), Fail> {
    for row in ROWS {
        let done = play(rt.alloc(), row.path, row.script, row.failing)?;
        assert_eq!(rt; done.line.as_str(), row.line, "{}", row.case);
        assert_eq!(rt; done.output.as_str(), row.output, "{}", row.case);
        assert!(rt; done.lent == Some(0), "{}", row.case);
    }
    Ok(())
}
