//! Headers and their faults, and streams that come in pieces.
mod headers;
mod streams;

use crate::kinds::{
    HEADER_LEN, KEEPALIVE, MAX_LONG_LEN, NOTIFICATION, OPEN, ROUTE_REFRESH, UPDATE,
};
use crate::{FrameCutter, Next, Refusal};
use answers::NoMemory;
use headers::{FAULTS, LONG_UPDATE, WHOLE_KEEPALIVE};
use std::alloc::Global;
use std::test::Fail;

#[test]
fn each_fault_has_its_code_and_its_data(rt: HostRuntime) -> Result<(), Fail> {
    for (header, sub, detail) in FAULTS {
        let mut cutter = FrameCutter::new(rt.alloc())?;
        assert_eq!(rt; cutter.feed(header), header.len(), "{header:?}");
        assert!(rt;
            cutter.peek() == Next::Fault(Refusal::new(1, sub, detail)),
            "{header:?}"
        );
    }
    Ok(())
}

#[test]
fn a_header_is_looked_at_once_it_is_whole(rt: HostRuntime) -> Result<(), Fail> {
    let mut cutter = FrameCutter::new(rt.alloc())?;
    for (header, _, _) in FAULTS {
        cutter.reset();
        cutter.feed(&header[..header.len() - 1]);
        assert!(rt; cutter.peek() == Next::NotYet, "{header:?}");
    }
    Ok(())
}

#[test]
fn a_long_message_is_taken_behind_the_one_at_which_the_cutter_was_widened(
    rt: HostRuntime,
) -> Result<(), Fail> {
    let mut cutter = FrameCutter::new(rt.alloc())?;
    cutter.feed(LONG_UPDATE);
    assert!(rt; cutter.peek() == Next::Fault(Refusal::new(1, 2, &[0x13, 0x88])));
    cutter.reset();
    cutter.feed(WHOLE_KEEPALIVE);
    cutter.feed(LONG_UPDATE);
    if let Next::Frame {
        kind: KEEPALIVE,
        ..
    } = cutter.peek()
    {
        cutter.widen();
    }
    cutter.advance();
    assert!(rt; cutter.peek() == Next::NotYet);
    Ok(())
}
