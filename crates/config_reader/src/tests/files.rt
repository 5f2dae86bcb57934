//! Whole files, read from texts.
use super::{DEFAULTS, Fault, refused};
use crate::{ConfigError, read_config};
use config_model::ConfigKind::{Family, Long, Many, Missing, Process, Token, Twice};
use config_model::{Config, Neighbor, Process as ProcessSection, Settings, Slots};
use route_values::{Addr, Hop};
use std::alloc::Global;
use token_reader::MAX_FILE;

// The most sections of both sorts.
const SLOTS: Slots = Slots {
    helpers: 16,
    peers: 64,
};

const EXAMPLE: &str = "process announcer {
    run /usr/bin/python3 -u /etc/exabgp/announce.py;
    encoder text;
}
neighbor 192.0.2.2 {
    description \"transit one\";
    router-id 192.0.2.9;
    local-address 192.0.2.9;
    local-as 65001;
    peer-as 65002;
    hold-time 180;
    family { ipv4 unicast; ipv6 unicast; }
    static {
        route 198.51.100.0/24 next-hop self community [ 65001:100 no-export ];
    }
    api { processes [ announcer ]; }
}
neighbor 192.0.2.3 {
    local-address 192.0.2.9;
    local-as 65001;
    peer-as 65001;
    family { ipv4 unicast; }
    api { processes [ announcer ]; }
}
";

// The settings of its first neighbour.
const FIRST: Settings = Settings {
    peer: Addr::V4(0xC000_0202),
    ..DEFAULTS
};

// The settings of its second one.
const SECOND: Settings = Settings {
    peer_as: 65_001,
    ipv6: false,
    ..DEFAULTS
};

fn read(rt: HostRuntime, text: &str) -> Result<Config, ConfigError> {
    read_config(rt.alloc(), text.as_bytes(), SLOTS)
}

fn is_announcer(process: &ProcessSection) -> bool {
    let run = b"/usr/bin/python3\0-u\0/etc/exabgp/announce.py";
    process.name.as_slice() == b"announcer".as_slice()
        && process.run.as_slice() == run.as_slice()
        && !process.json
        && process.respawn
}

// The first neighbour has one static route.
fn has_route(neighbor: &Neighbor) -> bool {
    let [route] = neighbor.statics.as_slice() else {
        return false;
    };
    let communities = [0xFDE9_0064, 0xFFFF_FF01];
    route.key.prefix.addr() == Addr::V4(0xC633_6400)
        && route.attrs.hop == Hop::Own
        && route.attrs.communities.as_slice() == communities.as_slice()
}

// Both neighbours, which hear the process.
fn are_both(first: &Neighbor, second: &Neighbor) -> bool {
    first.settings == FIRST
        && second.settings == SECOND
        && first.hears(b"announcer")
        && second.hears(b"announcer")
        && has_route(first)
        && second.statics.len() == 0
}

#[test]
fn a_file_gives_its_processes_and_neighbours(rt: HostRuntime) {
    let Ok(config) = read(rt, EXAMPLE) else {
        assert!(rt; false);
        return;
    };
    let ([process], [first, second]) = (config.processes(), config.neighbors()) else {
        assert!(rt; false);
        return;
    };
    assert!(rt; is_announcer(process));
    assert!(rt; are_both(first, second));
}

#[test]
fn a_beginning_of_a_file_is_one_exactly_where_a_section_ends(rt: HostRuntime) {
    'beginnings: for len in 0..=EXAMPLE.len() {
        let bytes = &EXAMPLE.as_bytes()[..len];
        let ends = len == 0 || bytes.ends_with(b"\n}") || bytes.ends_with(b"\n}\n");
        assert_eq!(rt;
            read_config(rt.alloc(), bytes, SLOTS).is_ok(),
            ends,
            "{len}"
        );
    }
}

// Texts that are no configuration, and their first faults.
const FAULTS: [(&str, Fault); 19] = [
    ("process h { run cat;", (1, 21, Token)),
    ("frob { }", (1, 1, Token)),
    ("process h { run cat; }\n}", (2, 1, Token)),
    (
        "process h { run cat; } process h { run cat; }",
        (1, 32, Twice),
    ),
    ("process h { }", (1, 13, Missing)),
    ("neighbor 192.0.2 { }", (1, 10, Token)),
    (
        "neighbor 192.0.2.3 { local-as 7; local-as 7; }",
        (1, 34, Twice),
    ),
    ("neighbor 192.0.2.3 { hold-time 2; }", (1, 32, Token)),
    ("neighbor 192.0.2.3 { connect 0; }", (1, 30, Token)),
    ("neighbor 192.0.2.3 { description ; }", (1, 34, Token)),
    (
        "neighbor 192.0.2.3 { description a \"b c\" d;\ndescription e; }",
        (2, 1, Twice),
    ),
    ("neighbor 192.0.2.3 { local-address ::1; }", (1, 36, Family)),
    (
        "neighbor 192.0.2.3 { local-address 192.0.2.9; local-as 65001; }",
        (1, 63, Missing),
    ),
    (
        "neighbor ::3 { local-address ::9; local-as 65001; peer-as 65002; }",
        (1, 66, Missing),
    ),
    (
        "neighbor 192.0.2.3 { local-address 192.0.2.9; local-as 65001; peer-as 65002;\n\
              static { route 2001:db8::/32 next-hop self; }\n\
            }",
        (3, 1, Family),
    ),
    (
        "neighbor 192.0.2.3 { static { route ::/0 next-hop self; }\n}",
        (2, 1, Missing),
    ),
    (
        "neighbor 192.0.2.3 { local-address 192.0.2.9; local-as 65001; peer-as 65002; }\n\
            neighbor 192.0.2.3 { }",
        (2, 10, Twice),
    ),
    (
        "neighbor 192.0.2.3 { local-address 192.0.2.9; local-as 65001; peer-as 65002;\n\
              api { processes [ h, g ]; } }\n\
            process h { run cat; }",
        (2, 22, Process),
    ),
    (
        "neighbor 192.0.2.3 { local-address 192.0.2.9; local-as 65001; peer-as 65002;\n\
              api { processes [ g ]; } }\n\
            frob",
        (3, 1, Token),
    ),
];

#[test]
fn the_first_fault_of_a_file_has_a_place_and_a_kind(rt: HostRuntime) {
    for (text, fault) in FAULTS {
        let read = read(rt, text);
        assert!(rt; read.is_err_and(|error| error == refused(fault)), "{text}");
    }
}

#[test]
fn a_section_too_many_is_told_at_its_first_word(rt: HostRuntime) {
    let one = Slots {
        helpers: 1,
        peers: 0,
    };
    let table = [
        (
            "process a { run cat; }\nprocess a { run cat; }",
            (2, 1, Many),
        ),
        ("process a { run cat; } neighbor", (1, 24, Many)),
    ];
    for (text, fault) in table {
        let read = read_config(rt.alloc(), text.as_bytes(), one);
        assert!(rt; read.is_err_and(|error| error == refused(fault)), "{text}");
    }
}

// Why a file of so many spaces is refused.
fn refusal(alloc: Global, count: usize) -> Option<ConfigError> {
    let Ok(spaces) = Vec::from_elem(alloc, b' ', count) else {
        return Some(ConfigError::NoMemory);
    };
    read_config(alloc, &spaces, SLOTS).err()
}

#[test]
fn a_file_of_more_than_1048576_bytes_is_long(rt: HostRuntime) {
    let long = refused((0, 0, Long));
    assert_eq!(rt; refusal(rt.alloc(), MAX_FILE), None);
    assert_eq!(rt; refusal(rt.alloc(), MAX_FILE + 1), Some(long));
}
