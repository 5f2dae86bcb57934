//! Lines and files with their tokens and places, read through the trait.
ghost use Rattle.std.specs.Prelude.{◌≡◌, [], length, vec_len, IfOk};

use crate::Token::{Mark, Quoted, Unclosed, Word};
use crate::{FileTokens, MAX_FILE, MAX_LINE, Place, Token, Tokens, Words};
use std::alloc::{AllocError, Global};
use std::test::Fail;

// Reads all tokens, and says how many there were.
fn count<W: Words>(words: &mut W) -> u32
    ensures all { result ≡ length (W.left words.old) }
    ensures left { W.left words.new ≡ [] }
    ensures end { W.end words.new ≡ W.end words.old }
{
    let mut n = 0;
    'tokens: while words.peek().is_some() {
        words.advance();
        n += 1;
    }
    n
}

// Whether these tokens stand there at these places, and then the end.
fn stand<W: Words>(words: &mut W, wanted: &[(Token, u32, u32)], end: (u32, u32)) -> bool {
    for (token, line, column) in wanted {
        let place = Place {
            line: *line,
            column: *column,
        };
        if words.peek() != Some(*token) || words.place() != place {
            return false;
        }
        words.advance();
    }
    words.advance();
    words.peek() == None
        && words.place()
            == Place {
                line: end.0,
                column: end.1,
            }
}

const LINES: [(&str, &[(Token<'static>, u32, u32)], u32); 7] = [
    ("", &[], 1),
    (" \t ", &[], 1),
    (
        "announce route\t 10.0.0.0/24 ",
        &[
            (Word(b"announce"), 1, 1),
            (Word(b"route"), 1, 2),
            (Word(b"10.0.0.0/24"), 1, 3),
        ],
        4,
    ),
    (
        "[a](b),,c",
        &[
            (Mark(b'['), 1, 1),
            (Word(b"a"), 1, 2),
            (Mark(b']'), 1, 3),
            (Mark(b'('), 1, 4),
            (Word(b"b"), 1, 5),
            (Mark(b')'), 1, 6),
            (Mark(b','), 1, 7),
            (Mark(b','), 1, 8),
            (Word(b"c"), 1, 9),
        ],
        10,
    ),
    ("a;{b}", &[(Word(b"a;{b}"), 1, 1)], 2),
    (
        "\"a b\" #c",
        &[
            (Word(b"\"a"), 1, 1),
            (Word(b"b\""), 1, 2),
            (Word(b"#c"), 1, 3),
        ],
        4,
    ),
    ("a\r b\r", &[(Word(b"a\r"), 1, 1), (Word(b"b\r"), 1, 2)], 3),
];

#[test]
fn a_line_has_words_and_marks_that_are_counted(rt: HostRuntime) {
    for (text, wanted, end) in LINES {
        let mut words = Tokens::new(text.as_bytes());
        assert!(rt; stand(&mut words, wanted, (1, end)), "{text}");
    }
}

const FILES: [(&str, &[(Token<'static>, u32, u32)], (u32, u32)); 12] = [
    ("", &[], (1, 1)),
    (" \r\n\t", &[], (2, 2)),
    ("a\n", &[(Word(b"a"), 1, 1)], (2, 1)),
    (
        "\r\n\t a\rb\tc",
        &[(Word(b"a"), 2, 3), (Word(b"b"), 2, 5), (Word(b"c"), 2, 7)],
        (2, 8),
    ),
    (
        "process h { run cat;",
        &[
            (Word(b"process"), 1, 1),
            (Word(b"h"), 1, 9),
            (Mark(b'{'), 1, 11),
            (Word(b"run"), 1, 13),
            (Word(b"cat"), 1, 17),
            (Mark(b';'), 1, 20),
        ],
        (1, 21),
    ),
    (
        "{a}[b](c),d;",
        &[
            (Mark(b'{'), 1, 1),
            (Word(b"a"), 1, 2),
            (Mark(b'}'), 1, 3),
            (Mark(b'['), 1, 4),
            (Word(b"b"), 1, 5),
            (Mark(b']'), 1, 6),
            (Mark(b'('), 1, 7),
            (Word(b"c"), 1, 8),
            (Mark(b')'), 1, 9),
            (Mark(b','), 1, 10),
            (Word(b"d"), 1, 11),
            (Mark(b';'), 1, 12),
        ],
        (1, 13),
    ),
    ("#a \"b\"", &[], (1, 7)),
    (
        "a#b;#c\"\n#\nd#",
        &[
            (Word(b"a#b"), 1, 1),
            (Mark(b';'), 1, 4),
            (Word(b"d#"), 3, 1),
        ],
        (3, 3),
    ),
    (
        "\"a b\"\n\"\"\"{#\"c\"d\"#e",
        &[
            (Quoted(b"a b"), 1, 1),
            (Quoted(b""), 2, 1),
            (Quoted(b"{#"), 2, 3),
            (Word(b"c\"d\"#e"), 2, 7),
        ],
        (2, 13),
    ),
    ("\"a\"#b", &[(Quoted(b"a"), 1, 1)], (1, 6)),
    (
        "x \"a;\nb\"c",
        &[(Word(b"x"), 1, 1), (Unclosed, 1, 3), (Word(b"b\"c"), 2, 1)],
        (2, 4),
    ),
    (
        "\"a\r\"\n;\"",
        &[(Quoted(b"a\r"), 1, 1), (Mark(b';'), 2, 1), (Unclosed, 2, 2)],
        (2, 3),
    ),
];

#[test]
fn a_file_has_comments_and_quoted_words_and_its_bytes_are_counted(rt: HostRuntime) {
    for (text, wanted, end) in FILES {
        let mut words = FileTokens::new(text.as_bytes());
        assert!(rt; stand(&mut words, wanted, end), "{text}");
    }
}

// So many marks.
fn commas(alloc: Global, count: usize) -> Result<Vec<u8>, AllocError>
    ensures { IfOk result (λ marks. vec_len marks ≡ count) }
{
    vec![in alloc; b','; count]
}

#[test]
fn the_longest_line_is_read_to_its_end(rt: HostRuntime) -> Result<(), Fail> {
    let bytes = commas(rt.alloc(), MAX_LINE)?;
    let mut words = Tokens::new(&bytes);
    assert_eq!(rt; count(&mut words), 65_535);
    assert_eq!(rt;
        words.place(),
        Place {
            line: 1,
            column: 65_536
        }
    );
    Ok(())
}

#[test]
fn the_longest_file_is_read_to_its_end(rt: HostRuntime) -> Result<(), Fail> {
    let bytes = commas(rt.alloc(), MAX_FILE)?;
    let mut words = FileTokens::new(&bytes);
    assert_eq!(rt; count(&mut words), 1_048_576);
    assert_eq!(rt;
        words.place(),
        Place {
            line: 1,
            column: 1_048_577
        }
    );
    Ok(())
}
