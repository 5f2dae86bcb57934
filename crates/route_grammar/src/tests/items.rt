//! Items, read from lines.
use super::tokens;
use crate::{Items, read_items};
use route_values::{Addr, Aggregator, Hop, Large, Origin, Segment};
use token_reader::Words;

// The segments of a path: whether each is a set, and its numbers.
type Path = &'static [(bool, &'static [u32])];

// What the items of a line are to say.
#[derive(Clone, Copy)]
enum Said {
    Nothing,
    Hop(Hop),
    Origin(Origin),
    Path(Path),
    Med(u32),
    LocalPref(u32),
    Atomic,
    Aggregator(Aggregator),
    Communities(&'static [u32]),
    Originator(u32),
    Clusters(&'static [u32]),
    Extended(&'static [[u8; 8]]),
    Large(&'static [Large]),
    PathId(u32),
}

fn has_path(segments: &[Segment], wanted: Path) -> bool {
    if segments.len() != wanted.len() {
        return false;
    }
    for (segment, (set, numbers)) in segments.iter().zip(wanted) {
        if segment.set != *set || segment.numbers.as_slice() != *numbers {
            return false;
        }
    }
    true
}

// Whether the items say this.
fn say(items: &Items, said: Said) -> bool {
    let attrs = &items.attrs;
    match said {
        Said::Nothing => attrs.hop == Hop::Own,
        Said::Hop(hop) => attrs.hop == hop,
        Said::Origin(origin) => attrs.origin == Some(origin),
        Said::Path(wanted) => match &attrs.path {
            Some(path) => has_path(path.segments(), wanted),
            None => false,
        },
        Said::Med(number) => attrs.med == Some(number),
        Said::LocalPref(number) => attrs.local_pref == Some(number),
        Said::Atomic => attrs.atomic,
        Said::Aggregator(aggregator) => attrs.aggregator == Some(aggregator),
        Said::Communities(numbers) => attrs.communities.as_slice() == numbers,
        Said::Originator(number) => attrs.originator == Some(number),
        Said::Clusters(numbers) => attrs.clusters.as_slice() == numbers,
        Said::Extended(communities) => attrs.extended.as_slice() == communities,
        Said::Large(communities) => attrs.large.as_slice() == communities,
        Said::PathId(id) => items.id == id,
    }
}

// How many kinds of items say something.
fn count_said(items: &Items) -> usize {
    let attrs = &items.attrs;
    let said = [
        items.has_hop,
        attrs.origin.is_some(),
        attrs.path.is_some(),
        attrs.med.is_some(),
        attrs.local_pref.is_some(),
        attrs.atomic,
        attrs.aggregator.is_some(),
        attrs.communities.len() > 0,
        attrs.originator.is_some(),
        attrs.clusters.len() > 0,
        attrs.extended.len() > 0,
        attrs.large.len() > 0,
        items.id != 0,
    ];
    said.iter().filter(|one| **one).count()
}

const LARGE: Large = Large {
    global: 1,
    first: 2,
    second: 0xFFFF_FFFF,
};

const AGGREGATOR: Aggregator = Aggregator {
    asn: 65_536,
    addr: 0xC000_0201,
};

// Lines, what their one item says, and the number of the token that is left.
const LINES: [(&str, Said, u32); 29] = [
    (
        "next-hop 192.0.2.1 x",
        Said::Hop(Hop::Is(Addr::V4(0xC000_0201))),
        3,
    ),
    ("next-hop ::1 ]", Said::Hop(Hop::Is(Addr::V6(1))), 3),
    ("next-hop self", Said::Hop(Hop::Own), 3),
    ("origin igp", Said::Origin(Origin::Igp), 3),
    ("origin IGP", Said::Origin(Origin::Igp), 3),
    ("origin egp", Said::Origin(Origin::Egp), 3),
    ("origin EGP", Said::Origin(Origin::Egp), 3),
    ("origin incomplete", Said::Origin(Origin::Incomplete), 3),
    ("origin INCOMPLETE", Said::Origin(Origin::Incomplete), 3),
    ("as-path 65001 1", Said::Path(&[(false, &[65_001])]), 3),
    ("as-path [ ]", Said::Path(&[]), 4),
    (
        "as-path [1 65002(3 4)1.0 6]",
        Said::Path(&[
            (false, &[1, 65_002]),
            (true, &[3, 4]),
            (false, &[65_536, 6]),
        ]),
        12,
    ),
    (
        "as-path [ ( 1 ) ( 1 ) ]",
        Said::Path(&[(true, &[1]), (true, &[1])]),
        10,
    ),
    ("med 4294967295", Said::Med(0xFFFF_FFFF), 3),
    ("local-preference 0", Said::LocalPref(0), 3),
    ("atomic-aggregate 1", Said::Atomic, 2),
    (
        "aggregator 65536:192.0.2.1",
        Said::Aggregator(AGGREGATOR),
        3,
    ),
    (
        "aggregator ( 1.0:192.0.2.1 )",
        Said::Aggregator(AGGREGATOR),
        5,
    ),
    ("community 65001:7", Said::Communities(&[0xFDE9_0007]), 3),
    (
        "community [no-export no-advertise no-export-subconfed blackhole 0:65535]",
        Said::Communities(&[0xFFFF_FF01, 0xFFFF_FF02, 0xFFFF_FF03, 0xFFFF_029A, 0xFFFF]),
        9,
    ),
    ("originator-id 192.0.2.9", Said::Originator(0xC000_0209), 3),
    ("cluster-list 0.0.0.1", Said::Clusters(&[1]), 3),
    (
        "cluster-list [ 0.0.0.1 0.0.0.1 ]",
        Said::Clusters(&[1, 1]),
        6,
    ),
    (
        "extended-community [ target:192.0.2.1:7 origin:65001:65536 ]",
        Said::Extended(&[[1, 2, 0xC0, 0, 2, 1, 0, 7], [0, 3, 0xFD, 0xE9, 0, 1, 0, 0]]),
        6,
    ),
    (
        "extended-community target:65536:7",
        Said::Extended(&[[2, 2, 0, 1, 0, 0, 0, 7]]),
        3,
    ),
    (
        "extended-community 0x0002aBfF00000064",
        Said::Extended(&[[0, 2, 0xAB, 0xFF, 0, 0, 0, 0x64]]),
        3,
    ),
    ("large-community 1:2:4294967295", Said::Large(&[LARGE]), 3),
    ("path-information 7", Said::PathId(7), 3),
    ("path-information 0.0.0.7", Said::PathId(7), 3),
];

#[test]
fn an_item_is_read_as_what_it_says(rt: HostRuntime) {
    for (line, said, left) in LINES {
        let mut words = tokens(line.as_bytes());
        let is_read = match read_items(rt.alloc(), &mut words, None) {
            Ok(items) => say(&items, said) && count_said(&items) == 1,
            Err(_) => false,
        };
        assert!(rt; is_read, "{line}");
        assert!(rt; words.place().column == left, "{line}");
    }
}

// Lines whose items say nothing, and the number of the token that is left.
const EMPTY: [(&str, u32); 7] = [
    ("", 1),
    ("nlri med 5", 1),
    ("( med 5", 1),
    ("community [ ] med-5", 4),
    ("cluster-list [ ]", 4),
    ("extended-community [ ]", 4),
    ("large-community [ ]", 4),
];

#[test]
fn items_end_at_a_token_that_begins_none(rt: HostRuntime) {
    for (line, left) in EMPTY {
        let mut words = tokens(line.as_bytes());
        let is_read = match read_items(rt.alloc(), &mut words, None) {
            Ok(items) => say(&items, Said::Nothing) && count_said(&items) == 0,
            Err(_) => false,
        };
        assert!(rt; is_read, "{line}");
        assert!(rt; words.place().column == left, "{line}");
    }
}

#[test]
fn items_of_several_kinds_are_said_together(rt: HostRuntime) {
    let mut words = tokens(b"med 5 next-hop self atomic-aggregate path-information 9 origin egp");
    let Ok(items) = read_items(rt.alloc(), &mut words, None) else {
        assert!(rt; false, "the items are read");
        return;
    };
    assert!(rt; say(&items, Said::Med(5)), "med");
    assert!(rt; say(&items, Said::Hop(Hop::Own)), "next-hop");
    assert!(rt; say(&items, Said::Atomic), "atomic-aggregate");
    assert!(rt; say(&items, Said::PathId(9)), "path-information");
    assert!(rt; say(&items, Said::Origin(Origin::Egp)), "origin");
    assert_eq!(rt; count_said(&items), 5);
}
