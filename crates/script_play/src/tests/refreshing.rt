//! Families that are asked for again (RFC 2918).
use super::*;

// A route was sent. Then its family is asked for by the neighbour, both families by a helper, and another family by the
// neighbour.
const AGAIN: &str = "spawn 0 0\npeer 0\nup 0 ipv4\n\
     line 0 1 announce route 10.0.0.0/24 next-hop 192.0.2.1\ndrain 0\n\
     refresh 0 ipv4\ndrain 0\n\
     line 0 1 flush adj-rib out\ndrain 0\n\
     refresh 0 ipv6\ndrain 0\n";

const AGAIN_TOLD: &str = "go 1\npeer\nup\n\
     done\n\
     update 0 more M002F02000000144001010040020602010000FDE9400304C0000201180A0000\n\
     update 0 last M00170200000000\n\
     nothing\n\
     ok\n\
     update 0 last M002F02000000144001010040020602010000FDE9400304C0000201180A0000\n\
     nothing\n\
     done\n\
     update 0 last M002F02000000144001010040020602010000FDE9400304C0000201180A0000\n\
     nothing\n\
     ok\n\
     nothing\n";

#[test]
fn a_family_that_is_asked_for_is_sent_again(rt: HostRuntime) -> Result<(), Fail> {
    let done = run(rt.alloc(), ONE, AGAIN, ALL_WELL)?;
    let wanted = written(rt.alloc(), AGAIN_TOLD)?;
    assert_eq!(rt; done.status, Status::Ok);
    assert_eq!(rt; done.output.as_str(), wanted.as_str());
    Ok(())
}
