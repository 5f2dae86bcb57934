//! Lines whose items have a fault.
use super::{has_fault, tokens};
use crate::LineFault::BadToken;
use crate::read_items;
use route_values::Family;
use token_reader::Words;

// Lines with a token at fault, and its number.
const FAULTS: [(&str, u32); 46] = [
    ("med", 2),
    ("med x", 2),
    ("med 01", 2),
    ("med 4294967296", 2),
    ("med ( 1", 2),
    ("med 1 med 1", 3),
    ("atomic-aggregate atomic-aggregate", 2),
    ("community [ ] med 1 community 1:1", 6),
    ("next-hop", 2),
    ("next-hop Self", 2),
    ("next-hop 192.0.2.256", 2),
    ("origin Igp", 2),
    ("local-preference -1", 2),
    ("as-path", 2),
    ("as-path 0", 2),
    ("as-path ( 1 )", 2),
    ("as-path [ 0 ]", 3),
    ("as-path [ 1", 4),
    ("as-path [ 1 )", 4),
    ("as-path [ 1 ( ) ]", 5),
    ("as-path [ 1 ( 2 ]", 6),
    ("as-path [ 1 ( 2 ( 3 ) ) ]", 6),
    ("aggregator ( 1:192.0.2.1", 4),
    ("aggregator ( )", 3),
    ("aggregator [ 1:192.0.2.1 ]", 2),
    ("aggregator 0:192.0.2.1", 2),
    ("aggregator 1:192.0.2.1:2", 2),
    ("community 1", 2),
    ("community 65536:1", 2),
    ("community 1:1:1", 2),
    ("community NO-EXPORT", 2),
    ("community [ 1:1 , 1:1 ]", 4),
    ("community [ 1:1", 4),
    ("originator-id 1", 2),
    ("cluster-list [ 1 ]", 3),
    ("extended-community 0X0000000000000000", 2),
    ("extended-community 0x000000000000000", 2),
    ("extended-community 0x000000000000000g", 2),
    ("extended-community target:1.0:1", 2),
    ("extended-community target:1", 2),
    ("extended-community target:192.0.2.1:65536", 2),
    ("extended-community target:65536:65536", 2),
    ("extended-community route:1:1", 2),
    ("large-community 1:2", 2),
    ("large-community 1:2:4294967296", 2),
    ("path-information 1.0", 2),
];

#[test]
fn the_first_token_that_goes_on_with_no_item_is_at_fault(rt: HostRuntime) {
    for (line, place) in FAULTS {
        let mut words = tokens(line.as_bytes());
        let read = read_items(rt.alloc(), &mut words, None);
        assert!(rt; has_fault(&read, BadToken { place }), "{line}");
        assert!(rt; words.place().column == place, "{line}");
    }
}

// Next hops, the family that is wanted, and whether they are taken.
const HOPS: [(&str, Family, bool); 6] = [
    ("next-hop 192.0.2.1", Family::Ipv4, true),
    ("next-hop ::1", Family::Ipv4, false),
    ("next-hop self", Family::Ipv4, true),
    ("next-hop 192.0.2.1", Family::Ipv6, false),
    ("next-hop ::1", Family::Ipv6, true),
    ("next-hop self", Family::Ipv6, true),
];

#[test]
fn a_next_hop_has_the_family_that_is_wanted(rt: HostRuntime) {
    for (line, family, taken) in HOPS {
        let mut words = tokens(line.as_bytes());
        let read = read_items(rt.alloc(), &mut words, Some(family));
        let wanted = if taken {
            read.is_ok()
        } else {
            has_fault(&read, BadToken { place: 2 })
        };
        assert!(rt; wanted, "{line}");
    }
}
