//! Scripts and lines, from memory to memory.
use crate::{Status, play};
use config_model::{Config, MAX_HELPERS, MAX_PEERS, Slots};
use config_reader::{ConfigError, read_config};
use outside::{HeldFile, MemoryFiles, MemorySink, MemorySource};
use std::alloc::Global;
use std::test::Fail;

mod encoding;
mod loading;
mod playing;
mod refreshing;
mod reloads;
mod stopping;

// A helper and a neighbour, which hears it.
const ONE: &str = "process h { run /bin/cat; }
neighbor 192.0.2.2 { local-address 192.0.2.9; local-as 65001; peer-as 65002;
  api { processes [ h ]; } }
";

// The same, and no neighbour hears the helper.
const UNHEARD: &str = "process h { run /bin/cat; }
neighbor 192.0.2.2 { local-address 192.0.2.9; local-as 65001; peer-as 65002; }
";

// The same with another hold time.
const HOLD: &str = "process h { run /bin/cat; }
neighbor 192.0.2.2 { local-address 192.0.2.9; local-as 65001; peer-as 65002; hold-time 90;
  api { processes [ h ]; } }
";

// The same with a static route.
const STATIC: &str = "process h { run /bin/cat; }
neighbor 192.0.2.2 { local-address 192.0.2.9; local-as 65001; peer-as 65002;
  static { route 10.0.0.0/24 next-hop 192.0.2.7; }
  api { processes [ h ]; } }
";

// Two neighbours, of which the first has a static route.
const TWO: &str = "process h { run /bin/cat; }
neighbor 192.0.2.2 { local-address 192.0.2.9; local-as 65001; peer-as 65002;
  static { route 10.0.1.0/24 next-hop self; }
  api { processes [ h ]; } }
neighbor 192.0.2.3 { local-address 192.0.2.9; local-as 65001; peer-as 65002;
  api { processes [ h ]; } }
";

// A section that isn't closed.
const UNFINISHED: &str = "process h { run cat;";

// What the sixteen bytes of ones in front of a message (RFC 4271, section 4.1) are written as.
const MARKER: &str = "FFFFFFFFFFFFFFFFFFFFFFFFFFFFFFFF";

// How many bytes the sink of a test keeps.
const ROOM: usize = 1 << 20;

// How a script ended, what was written, how often each object failed, and how many files weren't given back.
#[derive(Drop)]
struct Played {
    status: Status,
    output: String,
    files_failed: u64,
    reads_failed: u64,
    writes_failed: u64,
    lent: Option<u64>,
}

// The calls that fail, counted from 0, and how many bytes one read and one write take at most.
#[derive(Clone, Copy)]
struct Calls<'a> {
    opens: &'a [u64],
    reads: &'a [u64],
    writes: &'a [u64],
    step: usize,
}

const ALL_WELL: Calls<'static> = Calls {
    opens: &[],
    reads: &[],
    writes: &[],
    step: 65_536,
};

const BYTEWISE: Calls<'static> = Calls {
    opens: &[],
    reads: &[],
    writes: &[],
    step: 1,
};

// What a file says.
fn read(alloc: Global, file: &str) -> Result<Config, ConfigError> {
    let slots = Slots {
        helpers: MAX_HELPERS,
        peers: MAX_PEERS,
    };
    read_config(alloc, file.as_bytes(), slots)
}

// Plays a script over a book of this file. The files that a reload may name are at hand.
fn run(alloc: Global, file: &str, script: &str, calls: Calls<'_>) -> Result<Played, Fail> {
    let held = [
        HeldFile {
            path: "one.conf",
            content: ONE.as_bytes(),
        },
        HeldFile {
            path: "h.conf",
            content: HOLD.as_bytes(),
        },
        HeldFile {
            path: "b.conf",
            content: STATIC.as_bytes(),
        },
        HeldFile {
            path: "unfinished.conf",
            content: UNFINISHED.as_bytes(),
        },
    ];
    let config = read(alloc, file)?;
    let mut files = MemoryFiles::new(&held, calls.opens, &[]);
    let step = calls.step.max(1);
    let mut source = MemorySource::in_steps(script.as_bytes(), step, calls.reads);
    let mut sink = MemorySink::in_steps(alloc, ROOM, step, calls.writes)?;
    let status = play(alloc, config, &mut files, &mut source, &mut sink);
    let bytes = sink.bytes().ok_or("the sink has room")?;
    Ok(Played {
        status,
        output: String::from_utf8(Vec::from_slice(alloc, bytes)?)?,
        files_failed: files.faults(),
        reads_failed: source.faults(),
        writes_failed: sink.faults(),
        lent: files.lent(),
    })
}

// An output, in which `M` stands for a marker.
fn written(alloc: Global, output: &str) -> Result<String, Fail> {
    let mut text = String::new(alloc);
    for c in output.chars() {
        if c == 'M' {
            text.push_str(MARKER)?;
        } else {
            text.push(c)?;
        }
    }
    Ok(text)
}
