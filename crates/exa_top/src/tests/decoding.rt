//! Messages as lines, by the words of the command.
use super::run;
use crate::Status;
use std::test::Fail;

// 10.0.0.0/24 by 192.0.2.1 (RFC 4271, section 4.3), and how it is told.
const ROUTE: &str = "update 0 more FFFFFFFFFFFFFFFFFFFFFFFFFFFFFFFF002F02\
     0000\
     0014\
     40010100\
     40020602010000FDE9\
     400304C0000201\
     180A0000\n";

const TOLD: &str = "announce route 10.0.0.0/24 next-hop 192.0.2.1 origin igp as-path [ 65001 ]\n";

#[test]
fn messages_are_told_by_the_capabilities_that_the_words_spell(rt: HostRuntime) -> Result<(), Fail> {
    let table: [(&[&str], &str, &str); 5] = [
        (&["decode", "ipv4"], ROUTE, TOLD),
        (&["decode", "extended", "ipv6", "ipv4"], ROUTE, TOLD),
        // With path identifiers (RFC 7911, section 3), and the words in another order.
        (
            &["decode", "ipv4-path", "ipv4"],
            "FFFFFFFFFFFFFFFFFFFFFFFFFFFFFFFF001F02\
             0008\
             00000009180A0000\
             0000\n",
            "withdraw route 10.0.0.0/24 path-information 9\n",
        ),
        // Lines are counted from 1, blank ones and replies too.
        (
            &["decode", "ipv4"],
            "done\n\nFFFFFFFFFFFFFFFFFFFFFFFFFFFFFFFF001B02\
             0000\
             0004\
             40010103",
            "# refused 3 update 4 7\n",
        ),
        (&["decode", "ipv4"], "", ""),
    ];
    for (words, input, wanted) in table {
        let done = run(rt.alloc(), words, input, &[], &[])?;
        assert_eq!(rt; done.status, Status::Ok);
        assert_eq!(rt; done.output.as_str(), wanted);
    }
    Ok(())
}

#[test]
fn words_that_spell_no_capabilities_are_usage(rt: HostRuntime) -> Result<(), Fail> {
    let table: [&[&str]; 6] = [
        &["decode"],
        &["decode", "ipv5"],
        &["decode", "IPV4"],
        &["decode", "ipv4", "ipv4"],
        &["decode", "ipv4", "ipv6-path"],
        &["decode", "ipv4-path"],
    ];
    for words in table {
        let refused = run(rt.alloc(), words, ROUTE, &[0], &[0])?;
        assert_eq!(rt; refused.status, Status::Usage);
        assert_eq!(rt; refused.output.as_str(), "");
        assert_eq!(rt; refused.reads_failed, 0);
    }
    Ok(())
}

#[test]
fn what_was_told_before_a_fault_stays_told(rt: HostRuntime) -> Result<(), Fail> {
    let unread = run(rt.alloc(), &["decode", "ipv4"], ROUTE, &[1], &[])?;
    assert_eq!(rt; unread.status, Status::ReadFault);
    assert_eq!(rt; unread.output.as_str(), TOLD);
    assert_eq!(rt; unread.reads_failed, 1);
    let unwritten = run(rt.alloc(), &["decode", "ipv4"], ROUTE, &[], &[1])?;
    assert_eq!(rt; unwritten.status, Status::WriteFault);
    assert_eq!(rt; unwritten.output.as_str(), "announce route 10.0.");
    assert_eq!(rt; unwritten.writes_failed, 1);
    Ok(())
}
