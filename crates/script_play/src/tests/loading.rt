//! Large inputs, counted.
use crate::hashing::fixed_state;
use crate::loading::{MAX_LOAD, load};
use crate::status::Status;
use book_core::Book;
use config_model::{MAX_HELPERS, MAX_PEERS, Slots};
use config_reader::read_config;
use outside::MemorySink;
use std::alloc::Global;
use std::test::Fail;

// The configuration of a load.
const CONFIG: &str = "process h { run h; }
neighbor 127.0.0.1 { local-address 192.0.2.9; local-as 65001; peer-as 65002;
  family { ipv4 unicast; }
  api { processes [ h ]; } }
";

// How many bytes the sink of a test keeps.
const ROOM: usize = 1024;

// How many routes are loaded, and what is counted.
const LOADS: [(u32, &str); 3] = [
    (
        1,
        "routes 1\nlines 2\ndone 2\nerror 0\nmessages 3\nbytes 97\nannounced 1\nwithdrawn 1\n\
         left 0\n",
    ),
    (
        100,
        "routes 100\nlines 150\ndone 150\nerror 0\nmessages 3\nbytes 689\nannounced 100\n\
         withdrawn 50\nleft 50\n",
    ),
    (
        3000,
        "routes 3000\nlines 4500\ndone 4500\nerror 0\nmessages 6\nbytes 18198\nannounced 3000\n\
         withdrawn 1500\nleft 1500\n",
    ),
];

// A newly opened book.
fn opened(alloc: Global) -> Result<Book, Fail> {
    let slots = Slots {
        helpers: MAX_HELPERS,
        peers: MAX_PEERS,
    };
    let config = read_config(alloc, CONFIG.as_bytes(), slots)?;
    Ok(Book::open(alloc, config, fixed_state()?)?)
}

// How a load into a sink with these failing calls ended, and what was written.
fn loaded(alloc: Global, count: u32, failing: &[u64]) -> Result<(Status, String), Fail> {
    let mut book = opened(alloc)?;
    let mut sink = MemorySink::in_steps(alloc, ROOM, 8, failing)?;
    let status = load(alloc, &mut book, count.min(MAX_LOAD), &mut sink);
    let bytes = sink.bytes().ok_or("the sink has room")?;
    let output = String::from_utf8(Vec::from_slice(alloc, bytes)?)?;
    Ok((status, output))
}

#[test]
fn a_load_is_counted(rt: HostRuntime) -> Result<(), Fail> {
    for (count, wanted) in LOADS {
        let (status, output) = loaded(rt.alloc(), count, &[])?;
        assert_eq!(rt; status, Status::Ok, "{count}");
        assert_eq!(rt; output.as_str(), wanted, "{count}");
    }
    Ok(())
}

#[test]
fn a_failing_write_ends_it_with_the_front_of_the_counts(rt: HostRuntime) -> Result<(), Fail> {
    let (status, output) = loaded(rt.alloc(), 1, &[1])?;
    assert_eq!(rt; status, Status::WriteFault);
    assert_eq!(rt; output.as_str(), "routes 1");
    Ok(())
}
