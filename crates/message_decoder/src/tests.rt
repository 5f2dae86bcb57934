//! Messages in a stream. Their bytes are those of RFC 4271, section 4, field by field.
use crate::{Halt, decode_all};
use outside::{MemorySink, MemorySource};
use route_values::{Caps, Family};
use std::alloc::Global;
use std::test::Fail;

// 10.0.0.0/24 by 192.0.2.1, and how it is told.
const ROUTE: &str = "FFFFFFFFFFFFFFFFFFFFFFFFFFFFFFFF002F02\
     0000\
     0014\
     40010100\
     40020602010000FDE9\
     400304C0000201\
     180A0000\n";

const ROUTE_TOLD: &str =
    "announce route 10.0.0.0/24 next-hop 192.0.2.1 origin igp as-path [ 65001 ]\n";

// What a stream holds, and what is written for it.
const STREAMS: [(&str, &str, &str); 6] = [
    ("no line", "", ""),
    (
        "what another command printed, whose messages say nothing",
        "done\n\
         error memory\r\n\
         update 0 last FFFFFFFFFFFFFFFFFFFFFFFFFFFFFFFF00170200000000\n\
         nothing\n",
        "",
    ),
    (
        "two keys withdrawn and one announced",
        "ffffffffffffffffffffffffffffffff003702\
         0008\
         180a0001\
         180a0002\
         0014\
         40010100\
         40020602010000fde9\
         400304c0000201\
         180a0000\r\n",
        "withdraw route 10.0.1.0/24\n\
         withdraw route 10.0.2.0/24\n\
         announce route 10.0.0.0/24 next-hop 192.0.2.1 origin igp as-path [ 65001 ]\n",
    ),
    (
        "blank lines and replies, which count",
        "\n \t\r\ndone\r\nDONE\n\nerror\ndone now\n",
        "# refused 4 hex\n\
         # refused 7 hex\n",
    ),
    (
        "the first fault of each line, and an effect that no command writes",
        "FFFFFFFFFFFFFFFFFFFFFFFFFFFFFFFF001B02\
         0000\
         0004\
         40010103\n\
         FFFFFFFFFFFFFFFFFFFFFFFFFFFFFFFF001304\n\
         FFFFFFFFFFFFFFFFFFFFFFFFFFFFFFFF002F02\
         0000\
         0014\
         40010100\
         400206020100000000\
         400304C0000201\
         180A0000\n",
        "# refused 1 update 4 7\n\
         # refused 2 frame\n\
         # unprintable\n",
    ),
    (
        "a last line that no line feed ends",
        "error\n\
         FFFFFFFFFFFFFFFFFFFFFFFFFFFFFFFF001B02\
         0004\
         180A0000\
         0000",
        "withdraw route 10.0.0.0/24\n",
    ),
];

// How many bytes the sink of a test keeps.
const ROOM: usize = 1 << 12;

fn ipv4() -> Caps {
    Caps::none().with(Family::Ipv4, false)
}

// Decodes a stream whose listed reads and writes fail, and answers how that ended and what was written.
fn decode(
    alloc: Global,
    limit: usize,
    source: &mut MemorySource<'_>,
    failing_writes: &[u64],
) -> Result<(Result<(), Halt>, Vec<u8>), Fail> {
    let mut sink = MemorySink::new(alloc, ROOM, failing_writes)?;
    let ended = decode_all(alloc, &ipv4(), limit, source, &mut sink);
    let written = sink.bytes().ok_or("the sink has room")?;
    Ok((ended, Vec::from_slice(alloc, written)?))
}

#[test]
fn each_line_is_told_or_refused_by_its_number_however_it_comes(
    rt: HostRuntime,
) -> Result<(), Fail> {
    for (case, input, wanted) in &STREAMS {
        for step in [1, 7, usize::MAX] {
            let mut source = MemorySource::in_steps(input.as_bytes(), step, &[]);
            let (ended, written) = decode(rt.alloc(), usize::MAX, &mut source, &[])?;
            assert_eq!(rt; ended, Ok(()), "{case}, {step} bytes a read");
            assert_eq!(rt;
                written.as_slice(),
                wanted.as_bytes(),
                "{case}, {step} bytes a read"
            );
        }
    }
    Ok(())
}

#[test]
fn a_line_is_told_before_more_is_read(rt: HostRuntime) -> Result<(), Fail> {
    let mut input = String::new(rt.alloc());
    input.push_str(ROUTE)?;
    input.push_str("FG")?;
    let mut source = MemorySource::in_steps(input.as_bytes(), ROUTE.len(), &[1]);
    let (ended, written) = decode(rt.alloc(), usize::MAX, &mut source, &[])?;
    assert_eq!(rt; ended, Err(Halt::Read));
    assert_eq!(rt; written.as_slice(), ROUTE_TOLD.as_bytes());
    Ok(())
}

#[test]
fn a_write_that_fails_ends_it(rt: HostRuntime) -> Result<(), Fail> {
    let mut source = MemorySource::new(b"FG\nFG\nFG\n", &[]);
    let (ended, written) = decode(rt.alloc(), usize::MAX, &mut source, &[1])?;
    assert_eq!(rt; ended, Err(Halt::Write));
    assert_eq!(rt; written.as_slice(), b"# refused 1 hex\n".as_slice());
    Ok(())
}

#[test]
fn as_many_bytes_as_the_limit_are_too_many(rt: HostRuntime) -> Result<(), Fail> {
    let mut source = MemorySource::new(ROUTE.as_bytes(), &[]);
    let (ended, written) = decode(rt.alloc(), ROUTE.len(), &mut source, &[])?;
    assert_eq!(rt; ended, Err(Halt::Long));
    assert_eq!(rt; written.as_slice(), b"".as_slice());
    let mut whole = MemorySource::new(ROUTE.as_bytes(), &[]);
    let (ended, written) = decode(rt.alloc(), ROUTE.len() + 1, &mut whole, &[])?;
    assert_eq!(rt; ended, Ok(()));
    assert_eq!(rt; written.as_slice(), ROUTE_TOLD.as_bytes());
    Ok(())
}
