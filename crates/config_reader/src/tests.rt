//! Sections and parts of them, read from texts.
use crate::ConfigError;
use crate::capabilities::capabilities_at;
use crate::families::families_at;
use crate::heard::heard_at;
use crate::keyed::KeyedStatics;
use crate::processes::process_at;
use crate::settings::settings_written;
use crate::written::{Capabilities, Families, Heard, NeighborWritten, Ways};
use config_model::ConfigKind::{Many, Missing, Token, Twice};
use config_model::{ConfigFault, ConfigKind, Process, Settings};
use route_values::{Addr, Items};
use std::alloc::Global;
use token_reader::{FileTokens, Place};

mod files;
mod statics;

// The line, the column and the kind of a fault.
type Fault = (u32, u32, ConfigKind);

fn refused(fault: Fault) -> ConfigError {
    let (line, column, kind) = fault;
    ConfigError::Refused(ConfigFault { line, column, kind })
}

const FAMILIES: [(&str, Result<(bool, bool), Fault>); 9] = [
    ("{ }", Ok((false, false))),
    ("{ ipv4 unicast; }", Ok((true, false))),
    ("{ipv6 unicast;ipv4 unicast;}", Ok((true, true))),
    ("ipv4 unicast;", Err((1, 1, Token))),
    ("{ ipv4 multicast; }", Err((1, 8, Token))),
    ("{ ipv4 unicast }", Err((1, 16, Token))),
    ("{ ipv5 unicast; }", Err((1, 3, Token))),
    ("{ ipv4 unicast; ipv4 unicast; }", Err((1, 17, Twice))),
    ("{ ipv4 unicast;\n", Err((2, 1, Token))),
];

#[test]
fn families_stand_between_braces(rt: HostRuntime) {
    for (text, wanted) in FAMILIES {
        let mut words = FileTokens::new(text.as_bytes());
        let read = families_at(&mut words);
        match wanted {
            Ok((ipv4, ipv6)) => assert_eq!(rt; read, Ok(Families { ipv4, ipv6 }), "{text}"),
            Err(fault) => assert_eq!(rt; read, Err(refused(fault)), "{text}"),
        }
    }
}

const UNWRITTEN: Capabilities = Capabilities {
    paths: None,
    refresh: None,
    asn4: false,
    extended: None,
};

const ALL: Capabilities = Capabilities {
    paths: Some(Ways {
        send: true,
        receive: true,
    }),
    refresh: Some(false),
    asn4: true,
    extended: Some(true),
};

const SENT: Capabilities = Capabilities {
    paths: Some(Ways {
        send: true,
        receive: false,
    }),
    refresh: Some(true),
    asn4: false,
    extended: Some(false),
};

const CAPABILITIES: [(&str, Result<Capabilities, Fault>); 8] = [
    ("{ }", Ok(UNWRITTEN)),
    (
        "{ add-path send/receive; route-refresh disable; asn4 enable; extended-message enable; }",
        Ok(ALL),
    ),
    (
        "{ extended-message disable; route-refresh enable; add-path send; }",
        Ok(SENT),
    ),
    ("{ add-path both; }", Err((1, 12, Token))),
    ("{ asn4 disable; }", Err((1, 8, Token))),
    ("{ asn4 enable asn4 enable; }", Err((1, 15, Token))),
    ("{ mpls enable; }", Err((1, 3, Token))),
    (
        "{ route-refresh enable; route-refresh enable; }",
        Err((1, 25, Twice)),
    ),
];

#[test]
fn capabilities_stand_between_braces(rt: HostRuntime) {
    for (text, wanted) in CAPABILITIES {
        let mut words = FileTokens::new(text.as_bytes());
        let read = capabilities_at(&mut words);
        match wanted {
            Ok(said) => assert_eq!(rt; read, Ok(said), "{text}"),
            Err(fault) => assert_eq!(rt; read, Err(refused(fault)), "{text}"),
        }
    }
}

// A process: its name, its joined words, whether it has the encoder `json`, and whether it is started again.
type Said = (&'static str, &'static str, bool, bool);

const PROCESSES: [(&str, Result<Said, Fault>); 18] = [
    ("h { run cat; }", Ok(("h", "cat", false, true))),
    (
        "announcer {\n    run /usr/bin/python3 -u /etc/exabgp/announce.py;\n    encoder text;\n}",
        Ok((
            "announcer",
            "/usr/bin/python3\0-u\0/etc/exabgp/announce.py",
            false,
            true,
        )),
    ),
    (
        "h { encoder json; respawn false; run \"/bin/a b\" \"\"; }",
        Ok(("h", "/bin/a b\0", true, false)),
    ),
    ("h { run a # b;\n c; }", Ok(("h", "a\0c", false, true))),
    ("h { }", Err((1, 5, Missing))),
    ("h { encoder text; }", Err((1, 19, Missing))),
    ("h { run; }", Err((1, 8, Token))),
    ("h { run cat }", Err((1, 13, Token))),
    ("h { run cat; run cat; }", Err((1, 14, Twice))),
    ("h { run cat; speed 9; }", Err((1, 14, Token))),
    ("h { encoder xml; }", Err((1, 13, Token))),
    ("h { respawn yes; }", Err((1, 13, Token))),
    ("h { run \"cat; }", Err((1, 9, Token))),
    ("h { run cat;", Err((1, 13, Token))),
    ("h", Err((1, 2, Token))),
    ("h! { run cat; }", Err((1, 1, Token))),
    ("\"h\" { run cat; }", Err((1, 1, Token))),
    ("", Err((1, 1, Token))),
];

fn is_process(process: &Process, said: Said) -> bool {
    let (name, run, json, respawn) = said;
    process.name.as_slice() == name.as_bytes()
        && process.run.as_slice() == run.as_bytes()
        && process.json == json
        && process.respawn == respawn
}

#[test]
fn a_process_has_a_name_and_statements(rt: HostRuntime) {
    for (text, wanted) in PROCESSES {
        let mut words = FileTokens::new(text.as_bytes());
        match (process_at(&mut words, &[]), wanted) {
            (Ok(process), Ok(said)) => assert!(rt; is_process(&process, said), "{text}"),
            (Err(error), Err(fault)) => assert_eq!(rt; error, refused(fault), "{text}"),
            _ => assert!(rt; false, "{text}"),
        }
    }
}

#[test]
fn a_name_stands_once(rt: HostRuntime) {
    let mut words = FileTokens::new(b"h { run cat; } h { run cat; }");
    let Ok(first) = process_at(&mut words, &[]) else {
        assert!(rt; false);
        return;
    };
    assert_eq!(rt;
        process_at(&mut words, &[first]),
        Err(refused((1, 16, Twice)))
    );
}

#[test]
fn run_has_at_most_1024_bytes_and_a_name_64(rt: HostRuntime) {
    let mut text = [b'a'; 1035];
    text[..8].copy_from_slice(b"h { run ");
    text[1032..].copy_from_slice(b"; }");
    assert!(rt; process_at(&mut FileTokens::new(&text), &[]).is_ok());
    let mut longer = [b'a'; 1036];
    longer[..8].copy_from_slice(b"h { run ");
    longer[1033..].copy_from_slice(b"; }");
    let read = process_at(&mut FileTokens::new(&longer), &[]);
    assert_eq!(rt; read, Err(refused((1, 1034, Many))));
    let mut named = [b'a'; 76];
    named[64..].copy_from_slice(b" { run cat;}");
    assert!(rt; process_at(&mut FileTokens::new(&named), &[]).is_ok());
    assert!(rt; process_at(&mut FileTokens::new(&longer[8..]), &[]).is_err());
}

// The names that an `api` section lists, as they are written.
const HEARD: [(&str, Result<&[&str], Fault>); 12] = [
    ("{ processes [ announcer ]; }", Ok(&["announcer"])),
    ("{ processes [ ]; }", Ok(&[])),
    ("mine { processes [ a, b c ]; }", Ok(&["a", "b", "c"])),
    ("{ processes [ a a ]; }", Ok(&["a", "a"])),
    ("{ processes [ a, ]; }", Err((1, 18, Token))),
    ("{ processes [ , a ]; }", Err((1, 15, Token))),
    ("{ processes [ a!b ]; }", Err((1, 15, Token))),
    ("{ processes [ a ] }", Err((1, 19, Token))),
    ("{ processes a; }", Err((1, 13, Token))),
    ("{ }", Err((1, 3, Token))),
    ("{ processes [ a ]; processes [ b ]; }", Err((1, 20, Token))),
    ("a b { processes [ ]; }", Err((1, 3, Token))),
];

fn are_names(heard: &Items<Heard>, names: &[&str]) -> bool {
    let mut same = heard.len() == names.len();
    'names: for (one, name) in heard.as_slice().iter().zip(names.iter()) {
        same = same && one.name.as_slice() == name.as_bytes();
    }
    same
}

#[test]
fn a_neighbour_hears_the_processes_of_a_list(rt: HostRuntime) {
    for (text, wanted) in HEARD {
        let mut words = FileTokens::new(text.as_bytes());
        match (heard_at(&mut words, Items::new(rt.alloc())), wanted) {
            (Ok(heard), Ok(names)) => assert!(rt; are_names(&heard, names), "{text}"),
            (Err(error), Err(fault)) => assert_eq!(rt; error, refused(fault), "{text}"),
            _ => assert!(rt; false, "{text}"),
        }
    }
}

#[test]
fn a_name_is_heard_at_its_place(rt: HostRuntime) {
    let mut words = FileTokens::new(b"{ processes [ a\n, b ]; }");
    let Ok(heard) = heard_at(&mut words, Items::new(rt.alloc())) else {
        assert!(rt; false);
        return;
    };
    let Some(second) = heard.as_slice().get(1) else {
        assert!(rt; false);
        return;
    };
    assert_eq!(rt; second.place, Place { line: 2, column: 3 });
}

// The addresses 192.0.2.3 and 192.0.2.9.
const PEER: u32 = 0xC000_0203;

const LOCAL: u32 = 0xC000_0209;

// Statements of which no more is written than each neighbour needs.
fn needed(alloc: Global, local: Addr) -> NeighborWritten {
    NeighborWritten {
        description: false,
        router_id: None,
        local: Some(local),
        local_as: Some(65_001),
        peer_as: Some(65_002),
        hold: None,
        port: None,
        families: None,
        paths: None,
        capabilities: None,
        statics: KeyedStatics::new(alloc),
        heard: Items::new(alloc),
    }
}

const DEFAULTS: Settings = Settings {
    peer: Addr::V4(PEER),
    local: Addr::V4(LOCAL),
    port: 179,
    local_as: 65_001,
    peer_as: 65_002,
    router_id: LOCAL,
    hold: 180,
    ipv4: true,
    ipv6: true,
    ipv4_send: false,
    ipv6_send: false,
    ipv4_receive: false,
    ipv6_receive: false,
    refresh: true,
    extended: false,
};

#[test]
fn what_is_not_written_has_its_default(rt: HostRuntime) {
    let written = needed(rt.alloc(), Addr::V4(LOCAL));
    assert_eq!(rt; settings_written(Addr::V4(PEER), &written), Some(DEFAULTS));
}

#[test]
fn an_ipv6_neighbour_needs_an_identifier(rt: HostRuntime) {
    let mut written = needed(rt.alloc(), Addr::V6(9));
    assert!(rt; settings_written(Addr::V6(3), &written).is_none());
    written.router_id = Some(7);
    let settings = settings_written(Addr::V6(3), &written);
    assert!(rt; settings.is_some_and(|settings| settings.router_id == 7));
}

#[test]
fn path_identifiers_are_offered_for_families_that_are_on_and_listed(rt: HostRuntime) {
    let mut written = needed(rt.alloc(), Addr::V4(LOCAL));
    written.capabilities = Some(ALL);
    written.paths = Some(Families {
        ipv4: true,
        ipv6: false,
    });
    let wanted = Settings {
        ipv4_send: true,
        ipv4_receive: true,
        refresh: false,
        extended: true,
        ..DEFAULTS
    };
    assert_eq!(rt; settings_written(Addr::V4(PEER), &written), Some(wanted));
    written.families = Some(Families {
        ipv4: false,
        ipv6: true,
    });
    let none = Settings {
        ipv4: false,
        refresh: false,
        extended: true,
        ..DEFAULTS
    };
    assert_eq!(rt; settings_written(Addr::V4(PEER), &written), Some(none));
}
