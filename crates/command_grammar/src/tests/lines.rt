//! Lines of each form, and where a line has its first fault.
use super::{Said, is_answer};
use crate::read_command;
use route_grammar::LineFault::{self, BadToken};
use route_values::{Addr, Hop, Pick};

// 192.0.2.1, 192.0.2.2 and 2001:db8::1.
const FIRST: Addr = Addr::V4(0xc000_0201);

const SECOND: Addr = Addr::V4(0xc000_0202);

const SIXTH: Addr = Addr::V6(0x2001_0db8_0000_0000_0000_0000_0000_0001);

const ALONE: Pick = Pick {
    peer: SECOND,
    local: None,
    local_as: None,
    peer_as: None,
    router_id: None,
};

const WHOLE: Pick = Pick {
    peer: SECOND,
    local: Some(FIRST),
    local_as: Some(65_001),
    peer_as: Some(131_072),
    router_id: Some(0x0102_0304),
};

const READ: [(&str, Said); 33] = [
    ("#", Said::Comment),
    (" \t# announce nothing", Said::Comment),
    ("#announce route [ , (", Said::Comment),
    ("reload", Said::Reload),
    ("\tshutdown ", Said::Shutdown),
    ("disable-ack", Said::DisableAck),
    ("enable-ack", Said::EnableAck),
    ("flush adj-rib out", Said::Flush(&[])),
    ("clear adj-rib out", Said::Clear(&[])),
    ("show adj-rib out", Said::Show(&[], None)),
    (
        "show adj-rib out 10.0.0.0/8",
        Said::Show(&[], Some("10.0.0.0/8")),
    ),
    ("show adj-rib out ::/0", Said::Show(&[], Some("::/0"))),
    ("teardown 0", Said::Teardown(&[], 0)),
    ("teardown 255", Said::Teardown(&[], 255)),
    ("neighbor 192.0.2.2 teardown 4", Said::Teardown(&[ALONE], 4)),
    (
        "neighbor 192.0.2.2 local-ip 192.0.2.1 local-as 65001 peer-as 2.0 \
         router-id 1.2.3.4 flush adj-rib out",
        Said::Flush(&[WHOLE]),
    ),
    (
        "neighbor 192.0.2.2 router-id 1.2.3.4 peer-as 131072 local-as 0.65001 \
         local-ip 192.0.2.1 flush adj-rib out",
        Said::Flush(&[WHOLE]),
    ),
    (
        "neighbor 192.0.2.2,neighbor 192.0.2.2 , neighbor 192.0.2.2 show adj-rib out",
        Said::Show(&[ALONE, ALONE, ALONE], None),
    ),
    (
        "announce route 10.0.0.0/24 next-hop 192.0.2.1",
        Said::Announce(&[], &[("10.0.0.0/24", 0)], Hop::Is(FIRST)),
    ),
    (
        "announce route 10.0.0.1 med 7 next-hop self path-information 7",
        Said::Announce(&[], &[("10.0.0.1/32", 7)], Hop::Own),
    ),
    (
        "announce route 2001:db8::/32 next-hop 2001:db8::1",
        Said::Announce(&[], &[("2001:db8::/32", 0)], Hop::Is(SIXTH)),
    ),
    (
        "neighbor 192.0.2.2 announce route 10.0.0.0/24 next-hop 192.0.2.1",
        Said::Announce(&[ALONE], &[("10.0.0.0/24", 0)], Hop::Is(FIRST)),
    ),
    (
        "announce attributes next-hop 192.0.2.1 nlri 10.0.0.0/24",
        Said::Announce(&[], &[("10.0.0.0/24", 0)], Hop::Is(FIRST)),
    ),
    (
        "announce attributes path-information 0.0.0.9 next-hop self nlri ::/0 ::1 ::1",
        Said::Announce(
            &[],
            &[("::/0", 9), ("::1/128", 9), ("::1/128", 9)],
            Hop::Own,
        ),
    ),
    (
        "withdraw route 10.0.0.0/24",
        Said::Withdraw(&[], &[("10.0.0.0/24", 0)]),
    ),
    (
        "withdraw route 10.0.0.0/24 path-information 3",
        Said::Withdraw(&[], &[("10.0.0.0/24", 3)]),
    ),
    (
        "withdraw route 10.0.0.0/24 community [ ] next-hop self",
        Said::Withdraw(&[], &[("10.0.0.0/24", 0)]),
    ),
    (
        "withdraw attributes nlri 10.0.0.0/24 10.0.1.0/24",
        Said::Withdraw(&[], &[("10.0.0.0/24", 0), ("10.0.1.0/24", 0)]),
    ),
    (
        "withdraw attributes nlri 2001:db8::/32",
        Said::Withdraw(&[], &[("2001:db8::/32", 0)]),
    ),
    (
        "withdraw attributes med 1 next-hop 192.0.2.1 nlri 10.0.0.0/24",
        Said::Withdraw(&[], &[("10.0.0.0/24", 0)]),
    ),
    (
        "neighbor 192.0.2.2 withdraw route 10.0.0.0/24",
        Said::Withdraw(&[ALONE], &[("10.0.0.0/24", 0)]),
    ),
    (
        "neighbor 192.0.2.2 show adj-rib out 10.0.0.0/24",
        Said::Show(&[ALONE], Some("10.0.0.0/24")),
    ),
    (
        "neighbor 192.0.2.2 clear adj-rib out",
        Said::Clear(&[ALONE]),
    ),
];

#[test]
fn a_line_says_one_command(rt: HostRuntime) {
    for (line, said) in READ {
        let read = read_command(rt.alloc(), line.as_bytes());
        assert!(rt; is_answer(&read, &Ok(said)), "{line}");
    }
}

// Lines and the number of the token at fault.
const REFUSED: [(&str, u32); 54] = [
    ("", 1),
    ("x", 1),
    ("Reload", 1),
    ("reload x", 2),
    ("x # remark", 1),
    ("reload # remark", 2),
    ("[", 1),
    ("neighbor", 2),
    ("neighbor 192.0.2", 2),
    ("neighbor 192.0.2.2", 3),
    ("neighbor 192.0.2.2 reload", 3),
    ("neighbor 192.0.2.2 ,", 4),
    ("neighbor 192.0.2.2 , flush", 4),
    ("neighbor 192.0.2.2 neighbor 192.0.2.2", 3),
    (
        "neighbor 192.0.2.2 local-ip 192.0.2.1 local-ip 192.0.2.1 reload",
        5,
    ),
    ("neighbor 192.0.2.2 local-as 0", 4),
    ("neighbor 192.0.2.2 router-id ::1", 4),
    ("neighbor 192.0.2.2 x flush adj-rib out", 3),
    ("flush", 2),
    ("flush adj-rib in", 3),
    ("flush adj-rib out x", 4),
    ("clear adj-rib", 3),
    ("show adj-rib out 10.0.0.1/24", 4),
    ("show adj-rib out 10.0.0.0/24 x", 5),
    ("teardown", 2),
    ("teardown 256", 2),
    ("teardown 4 4", 3),
    ("announce", 2),
    ("announce x", 2),
    ("announce route", 3),
    ("announce route 10.0.0.1/24 next-hop 192.0.2.1", 3),
    ("announce route 10.0.0.0/33 next-hop 192.0.2.1", 3),
    (
        "announce route 10.0.0.0/24 next-hop 192.0.2.1 next-hop 192.0.2.1",
        6,
    ),
    ("announce route 10.0.0.0/24", 4),
    ("announce route 10.0.0.0/24 med 1", 6),
    ("announce route 10.0.0.0/24 x", 4),
    ("announce route 10.0.0.0/24 next-hop 192.0.2.1 x", 6),
    (
        "announce route 10.0.0.0/24 next-hop 192.0.2.1 nlri 10.0.0.0/24",
        6,
    ),
    ("announce route 10.0.0.0/24 next-hop ::1", 5),
    ("announce route ::/0 next-hop 192.0.2.1", 5),
    ("announce attributes med 1 nlri 10.0.0.0/24", 5),
    ("announce attributes nlri 10.0.0.0/24 next-hop 192.0.2.1", 3),
    ("announce attributes next-hop 192.0.2.1", 5),
    ("announce attributes next-hop 192.0.2.1 nlri", 6),
    (
        "announce attributes next-hop 192.0.2.1 nlri 10.0.0.0/24 ::/0",
        7,
    ),
    ("announce attributes next-hop 192.0.2.1 nlri ::/0", 6),
    ("announce attributes next-hop ::1 nlri 10.0.0.0/24", 6),
    ("announce attributes next-hop self nlri 10.0.0.0/24 x", 7),
    ("withdraw route 10.0.0.0/24 next-hop ::1", 5),
    ("withdraw route 10.0.0.1/24", 3),
    ("withdraw attributes next-hop ::1 nlri 10.0.0.0/24", 6),
    ("withdraw attributes nlri ::/0 10.0.0.0/24", 5),
    ("withdraw attributes nlri", 4),
    ("withdraw route 10.0.0.0/24\r extra", 3),
];

#[test]
fn the_first_token_that_goes_on_with_no_command_is_at_fault(rt: HostRuntime) {
    for (line, place) in REFUSED {
        let read = read_command(rt.alloc(), line.as_bytes());
        let wanted: Result<Said, LineFault> = Err(BadToken { place });
        assert!(rt; is_answer(&read, &wanted), "{line}");
    }
}
