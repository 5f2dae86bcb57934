//! Words, lists and items, read from lines.
use crate::LineFault::{BadToken, TooMany};
use crate::{Asn, Ipv4, Items, LineFault, Number, ReadFault, read_list, read_word};
use route_values::U32s;
use token_reader::{MAX_LINE, Tokens, Words};

mod faults;
mod items;
mod limits;

// The tokens of a line, which is not too long.
fn tokens(line: &[u8]) -> Tokens<'_> {
    Tokens::new(&line[..line.len().min(MAX_LINE)])
}

// Whether a reader gave this fault.
fn has_fault(read: &Result<Items, ReadFault>, wanted: LineFault) -> bool {
    match read {
        Err(ReadFault::Line(fault)) => *fault == wanted,
        _ => false,
    }
}

// Whether a reader gave these numbers, or this fault.
fn is_answer(read: &Result<U32s, ReadFault>, wanted: Result<&[u32], LineFault>) -> bool {
    match (read, wanted) {
        (Ok(values), Ok(numbers)) => values.as_slice() == numbers,
        (Err(ReadFault::Line(fault)), Err(other)) => *fault == other,
        _ => false,
    }
}

// Lists of AS numbers, of which there may be two, and the number of the token that is left.
const LISTS: [(&str, Result<&[u32], LineFault>, u32); 12] = [
    ("65001 1", Ok(&[65_001]), 2),
    ("1.0", Ok(&[65_536]), 2),
    ("[ ] 1", Ok(&[]), 3),
    ("[1 1]", Ok(&[1, 1]), 5),
    ("[ 1 2 ] 3", Ok(&[1, 2]), 5),
    ("", Err(BadToken { place: 1 }), 1),
    ("0", Err(BadToken { place: 1 }), 1),
    ("( 1 )", Err(BadToken { place: 1 }), 1),
    ("[ 1", Err(BadToken { place: 3 }), 3),
    ("[ 1 , 2 ]", Err(BadToken { place: 3 }), 3),
    ("[ 1 2 x ]", Err(BadToken { place: 4 }), 4),
    ("[ 1 2 3 ]", Err(TooMany { place: 4, limit: 2 }), 4),
];

#[test]
fn a_list_is_one_word_or_words_between_brackets(rt: HostRuntime) {
    for (text, wanted, left) in LISTS {
        let mut words = Tokens::new(text.as_bytes());
        let read = read_list(rt.alloc(), &mut words, &Asn, 2);
        assert!(rt; is_answer(&read, wanted), "{text}");
        assert_eq!(rt; words.place().column, left);
    }
}

#[test]
fn a_word_is_read_as_the_kind_that_is_asked_for(rt: HostRuntime) {
    let mut words = Tokens::new(b"1.2 1.2.3.4 12");
    assert_eq!(rt; read_word(&mut words, &Asn), Ok(65_538));
    assert_eq!(rt; read_word(&mut words, &Ipv4), Ok(0x0102_0304));
    assert_eq!(rt; read_word(&mut words, &Number), Ok(12));
    assert_eq!(rt;
        read_word(&mut words, &Number),
        Err(ReadFault::Line(BadToken { place: 4 }))
    );
}
