//! Files that are read, and the commands of what they say.
use crate::{command, read_health};
use route_values::{Addr, Hop};
use std::test::Fail;

// What a file says besides its prefixes.
type Said = (u32, u32, u64, u64, &'static str, Hop, u32, Option<u32>);

// A file, what it says, and the commands while the service is up and while it is down.
const FILES: [(&str, Said, &str, &str); 5] = [
    (
        "run /bin/check; prefix 10.0.0.0/24;",
        (
            3,
            3,
            5_000,
            1_099_511_627_776,
            "/bin/check",
            Hop::Own,
            100,
            None,
        ),
        "announce attributes next-hop self med 100 nlri 10.0.0.0/24",
        "withdraw attributes nlri 10.0.0.0/24",
    ),
    (
        "rise 1; fall 1; every 1; turns 1; up-med 0; down med 0; run x; prefix 10.0.0.1;",
        (1, 1, 1, 1, "x", Hop::Own, 0, Some(0)),
        "announce attributes next-hop self med 0 nlri 10.0.0.1/32",
        "announce attributes next-hop self med 0 nlri 10.0.0.1/32",
    ),
    (
        "# a service\nprefix 10.0.1.0/24 10.0.0.0/24 ; run \"/bin/a b\" ;\n\
         down med 4294967295; up-med 4294967295; next-hop 192.0.2.1; turns 1099511627776;\n\
         every 86400000; fall 1000; rise 1000;",
        (
            1_000,
            1_000,
            86_400_000,
            1_099_511_627_776,
            "/bin/a b",
            Hop::Is(Addr::V4(0xC000_0201)),
            4_294_967_295,
            Some(4_294_967_295),
        ),
        "announce attributes next-hop 192.0.2.1 med 4294967295 nlri 10.0.1.0/24 10.0.0.0/24",
        "announce attributes next-hop 192.0.2.1 med 4294967295 nlri 10.0.1.0/24 10.0.0.0/24",
    ),
    (
        "next-hop self;run x;prefix 2001:db8::/32 ::/0;down withdraw;",
        (3, 3, 5_000, 1_099_511_627_776, "x", Hop::Own, 100, None),
        "announce attributes next-hop self med 100 nlri 2001:db8:0:0:0:0:0:0/32 0:0:0:0:0:0:0:0/0",
        "withdraw attributes nlri 2001:db8:0:0:0:0:0:0/32 0:0:0:0:0:0:0:0/0",
    ),
    (
        "next-hop ::1; run x; prefix 2001:db8::1;",
        (
            3,
            3,
            5_000,
            1_099_511_627_776,
            "x",
            Hop::Is(Addr::V6(1)),
            100,
            None,
        ),
        "announce attributes next-hop 0:0:0:0:0:0:0:1 med 100 nlri 2001:db8:0:0:0:0:0:1/128",
        "withdraw attributes nlri 2001:db8:0:0:0:0:0:1/128",
    ),
];

#[test]
fn a_file_says_how_a_service_is_checked_and_what_is_announced(rt: HostRuntime) -> Result<(), Fail> {
    'files: for (text, said, up, down) in FILES {
        let health = read_health(rt.alloc(), text.as_bytes())?;
        let (rise, fall, every, turns, run, hop, up_med, down_med) = said;
        assert_eq!(rt; (health.rise, health.fall), (rise, fall), "{text}");
        assert_eq!(rt; (health.every, health.turns), (every, turns), "{text}");
        assert_eq!(rt; health.run.as_slice(), run.as_bytes(), "{text}");
        assert_eq!(rt; health.hop, hop, "{text}");
        assert_eq!(rt; (health.up_med, health.down), (up_med, down_med), "{text}");
        let announced = command(rt.alloc(), &health, true)?;
        assert_eq!(rt; announced.as_bytes(), up.as_bytes(), "{text}");
        let otherwise = command(rt.alloc(), &health, false)?;
        assert_eq!(rt; otherwise.as_bytes(), down.as_bytes(), "{text}");
    }
    Ok(())
}
