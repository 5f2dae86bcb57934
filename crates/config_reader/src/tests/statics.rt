//! Static routes, read from texts.
use super::{Fault, refused};
use crate::ConfigError;
use crate::heard::heard_at;
use crate::keyed::KeyedStatics;
use crate::names::names_of;
use crate::statics::statics_at;
use config_model::ConfigKind::{Many, Token, Twice};
use config_model::StaticRoute;
use route_values::{Addr, Hop, Items};
use std::alloc::Global;
use std::test::Fail;
use token_reader::{FileTokens, MAX_FILE};

// How many routes stand between braces, or the first fault there.
const ROUTES: [(&str, Result<usize, Fault>); 17] = [
    ("{ }", Ok(0)),
    ("{ route 10.0.0.0/24 next-hop 192.0.2.1; }", Ok(1)),
    ("{route 2001:db8::/32 med 5 next-hop ::1;}", Ok(1)),
    (
        "{ route 10.0.0.0/24 next-hop self;\n\
         route 10.0.0.0/24 next-hop self path-information 1; }",
        Ok(2),
    ),
    (
        "{ route 10.0.0.0/24 next-hop self; route 10.0.0.0/25 next-hop self; }",
        Ok(2),
    ),
    (
        "{ route 10.0.0.0/24 next-hop self;\nroute 10.0.0.0/24 next-hop self med 5; }",
        Err((2, 38, Twice)),
    ),
    ("{ route 10.0.0.0/24; }", Err((1, 20, Token))),
    ("{ route 10.0.0.0/24 med 5; }", Err((1, 26, Token))),
    (
        "{ route 10.0.0.0/24 next-hop self;\nroute 10.0.0.0/24; }",
        Err((2, 18, Token)),
    ),
    ("{ route 10.0.0.0/24 next-hop ::1; }", Err((1, 30, Token))),
    ("{ route ::/0 next-hop 192.0.2.1; }", Err((1, 23, Token))),
    (
        "{ route 10.0.0.0/24 next-hop self med 1 med 2; }",
        Err((1, 41, Token)),
    ),
    ("{ route 10.0.0.0/24 next-hop self }", Err((1, 35, Token))),
    ("{ route 10.0.0.1/24 next-hop self; }", Err((1, 9, Token))),
    (
        "{ route \"10.0.0.0/24\" next-hop self; }",
        Err((1, 9, Token)),
    ),
    ("{ network 10.0.0.0/24; }", Err((1, 3, Token))),
    ("{ route 10.0.0.0/24 next-hop self;\n", Err((2, 1, Token))),
];

#[test]
fn static_routes_are_read_as_announced_routes(rt: HostRuntime) {
    for (text, wanted) in ROUTES {
        let mut words = FileTokens::new(text.as_bytes());
        let read = statics_at(rt.alloc(), &mut words, KeyedStatics::new(rt.alloc()));
        match (read, wanted) {
            (Ok(routes), Ok(count)) => {
                assert_eq!(rt; routes.into_statics().len(), count, "{text}");
            }
            (Err(error), Err(fault)) => assert_eq!(rt; error, refused(fault), "{text}"),
            _ => assert!(rt; false, "{text}"),
        }
    }
}

fn is_route(route: &StaticRoute, len: u8, id: u32, hop: Hop, med: Option<u32>) -> bool {
    route.key.prefix.addr() == Addr::V4(0x0A00_0000)
        && route.key.prefix.len() == len
        && route.key.id == id
        && route.attrs.hop == hop
        && route.attrs.med == med
}

#[test]
fn sections_of_static_routes_are_joined(rt: HostRuntime) {
    let text = b"{ route 10.0.0.0/24 next-hop self med 5; }\
        { route 10.0.0.0/24 next-hop 192.0.2.1 path-information 0.0.0.7; }\
        { route 10.0.0.0/24 next-hop self; }";
    let mut words = FileTokens::new(text);
    let Ok(first) = statics_at(rt.alloc(), &mut words, KeyedStatics::new(rt.alloc())) else {
        assert!(rt; false);
        return;
    };
    let Ok(both) = statics_at(rt.alloc(), &mut words, first) else {
        assert!(rt; false);
        return;
    };
    let [one, other] = both.as_slice() else {
        assert!(rt; false);
        return;
    };
    assert!(rt; is_route(one, 24, 0, Hop::Own, Some(5)));
    assert!(rt; is_route(other, 24, 7, Hop::Is(Addr::V4(0xC000_0201)), None));
    let third = statics_at(rt.alloc(), &mut words, both);
    assert!(rt; third.is_err_and(|error| error == refused((1, 142, Twice))));
}

#[test]
fn a_list_over_its_limit_is_many_at_the_element(rt: HostRuntime) -> Result<(), Fail> {
    let mut text = Vec::new(rt.alloc());
    text.extend_from_slice(b"{ route 10.0.0.0/24 next-hop self cluster-list [")?;
    'elements: for _ in 0..33 {
        text.extend_from_slice(b" 1.1.1.1")?;
    }
    text.extend_from_slice(b" ]; }")?;
    let read = statics_in(rt.alloc(), &text);
    assert!(rt; read.is_err_and(|error| error == refused((1, 306, Many))));
    Ok(())
}

// The routes of a section that is no longer than a file.
fn statics_in(alloc: Global, text: &[u8]) -> Result<usize, ConfigError> {
    if text.len() > MAX_FILE {
        return Ok(0);
    }
    let mut words = FileTokens::new(text);
    let routes = statics_at(alloc, &mut words, KeyedStatics::new(alloc))?;
    Ok(routes.into_statics().len())
}

#[test]
fn a_file_full_of_static_routes_is_read(rt: HostRuntime) -> Result<(), Fail> {
    let mut text = Vec::new(rt.alloc());
    text.push(b'{')?;
    'routes: for number in 0..32_000_u32 {
        let route = format!(in rt.alloc();
            "route 10.0.{}.{} next-hop self;\n",
            number / 256,
            number % 256
        )?;
        text.extend_from_slice(route.as_bytes())?;
    }
    text.push(b'}')?;
    assert_eq!(rt; statics_in(rt.alloc(), &text), Ok(32_000));
    Ok(())
}

// The 64 letters of which the words of a long list are made.
const LETTERS: &[u8; 64] = b"ABCDEFGHIJKLMNOPQRSTUVWXYZabcdefghijklmnopqrstuvwxyz0123456789-_";

// How many words a neighbour hears, and how many of them differ.
fn heard_in(alloc: Global, text: &[u8]) -> Result<(usize, usize), ConfigError> {
    if text.len() > MAX_FILE {
        return Ok((0, 0));
    }
    let mut words = FileTokens::new(text);
    let heard = heard_at(&mut words, Items::new(alloc))?;
    let names = names_of(alloc, heard.as_slice())?;
    Ok((heard.len(), names.len()))
}

#[test]
fn half_a_million_words_are_heard(rt: HostRuntime) -> Result<(), Fail> {
    let mut text = Vec::new(rt.alloc());
    text.extend_from_slice(b"{processes[")?;
    'words: for number in 0..524_000_u32 {
        text.push(LETTERS[(number % 64) as usize])?;
        text.push(b' ')?;
    }
    text.extend_from_slice(b"];}")?;
    assert_eq!(rt; heard_in(rt.alloc(), &text), Ok((524_000, 64)));
    Ok(())
}

#[test]
fn each_of_many_names_is_heard(rt: HostRuntime) -> Result<(), Fail> {
    let mut text = Vec::new(rt.alloc());
    text.extend_from_slice(b"{processes[")?;
    'words: for number in 0..262_100_u32 {
        text.push(LETTERS[(number / 4096) as usize])?;
        text.push(LETTERS[(number / 64 % 64) as usize])?;
        text.push(LETTERS[(number % 64) as usize])?;
        text.push(b' ')?;
    }
    text.extend_from_slice(b"];}")?;
    assert_eq!(rt; heard_in(rt.alloc(), &text), Ok((262_100, 262_100)));
    Ok(())
}
