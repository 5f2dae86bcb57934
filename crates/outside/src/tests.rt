mod children;
mod links;
mod parts;

use super::*;
use std::alloc::Global;
use std::test::Fail;

// A script whose calls of these numbers fail.
fn failing(calls: &[u64]) -> Script<'_> {
    let mut script = Script::new();
    script.failing = calls;
    script
}

// What the calls of a source give until it ends, with `|` behind each piece, `!` for each fault.
fn pieces<S: Source>(alloc: Global, source: &mut S, room: usize) -> Result<String, Fail> {
    let mut text = String::new(alloc);
    let mut buffer = [0; 16];
    for _ in 0..20 {
        match source.read(&mut buffer[..room.clamp(1, 16)]) {
            Read::Got(count) => {
                let piece = String::from_utf8(Vec::from_slice(alloc, &buffer[..count])?)?;
                text.push_str(piece.as_str())?;
                text.push('|')?;
            }
            Read::End => return Ok(text),
            Read::Failed => text.push('!')?,
        }
    }
    Err(Fail::from("the source doesn't end"))
}

#[test]
fn a_source_gives_its_content_once_from_the_front(rt: HostRuntime) -> Result<(), Fail> {
    let alloc = rt.alloc();
    let table: [(&[u8], usize, usize, &str); 5] = [
        (b"abcdef", 4, 9, "abcd|ef|"),
        (b"abcdef", 3, 9, "abc|def|"),
        (b"abcdef", 16, 9, "abcdef|"),
        (b"abcdef", 16, 4, "abcd|ef|"),
        (b"", 1, 1, ""),
    ];
    for (content, room, step, wanted) in table {
        let step = step.max(1);
        let mut sure = SureSource::in_steps(content, step);
        assert_eq!(rt;
            pieces(alloc, &mut sure, room)?.as_str(),
            wanted,
            "never fails"
        );
        let mut listed = MemorySource::in_steps(content, step, &[]);
        assert_eq!(rt;
            pieces(alloc, &mut listed, room)?.as_str(),
            wanted,
            "may fail"
        );
    }
    assert_eq!(rt;
        pieces(alloc, &mut SureSource::new(b"abc"), 16)?.as_str(),
        "abc|"
    );
    Ok(())
}

#[test]
fn the_listed_reads_fail_and_lose_no_byte(rt: HostRuntime) -> Result<(), Fail> {
    let mut source = MemorySource::new(b"abcdef", &[0, 2, 3]);
    assert_eq!(rt; pieces(rt.alloc(), &mut source, 4)?.as_str(), "!abcd|!!ef|");
    assert_eq!(rt; source.faults(), 3);
    Ok(())
}

#[test]
fn a_source_is_read_whole_where_it_ends_below_the_limit(rt: HostRuntime) -> Result<(), Fail> {
    let alloc = rt.alloc();
    for step in [1, 2, 5, 100] {
        let mut source = SureSource::in_steps(b"abcdef", step);
        let bytes = read_all(alloc, &mut source, 7)?;
        assert_eq!(rt; bytes.as_slice(), b"abcdef".as_slice(), "step {step}");
        let mut long = SureSource::in_steps(b"abcdef", step);
        assert_eq!(rt;
            read_all(alloc, &mut long, 6).err(),
            Some(Unread::Long),
            "step {step}"
        );
        assert_eq!(rt; read_all(alloc, &mut long, 1)?.len(), 0, "step {step}");
    }
    Ok(())
}

#[test]
fn a_reading_that_failed_goes_on_where_it_stood(rt: HostRuntime) -> Result<(), Fail> {
    let alloc = rt.alloc();
    let mut source = MemorySource::in_steps(b"abcdef", 2, &[1]);
    assert_eq!(rt;
        read_all(alloc, &mut source, 100).err(),
        Some(Unread::Fault)
    );
    let rest = read_all(alloc, &mut source, 100)?;
    assert_eq!(rt; rest.as_slice(), b"cdef".as_slice());
    assert_eq!(rt; source.faults(), 1);
    Ok(())
}

// What a sink that takes at most `step` bytes a call holds after three pieces.
fn written(alloc: Global, step: usize) -> Result<Vec<u8>, Fail> {
    let mut sink = SureSink::in_steps(alloc, 100, step.max(1))?;
    write_all(&mut sink, b"abcdef")?;
    write_all(&mut sink, b"")?;
    write_all(&mut sink, b"gh")?;
    let bytes = sink.bytes().ok_or("the sink has room")?;
    Ok(Vec::from_slice(alloc, bytes)?)
}

#[test]
fn a_piece_is_written_whole_through_short_writes(rt: HostRuntime) -> Result<(), Fail> {
    for step in [1, 2, 5, 100] {
        let bytes = written(rt.alloc(), step)?;
        assert_eq!(rt; bytes.as_slice(), b"abcdefgh".as_slice(), "step {step}");
    }
    Ok(())
}

#[test]
fn a_write_that_fails_leaves_the_part_before_it(rt: HostRuntime) -> Result<(), Fail> {
    let alloc = rt.alloc();
    let mut sink = MemorySink::in_steps(alloc, 100, 2, &[1])?;
    assert_eq!(rt; write_all(&mut sink, b"abcdef"), Err(WriteFault));
    assert_eq!(rt; sink.bytes(), Some(b"ab".as_slice()));
    assert_eq!(rt; sink.faults(), 1);
    let mut first = MemorySink::new(alloc, 100, &[0])?;
    assert_eq!(rt; write_all(&mut first, b"abcdef"), Err(WriteFault));
    assert_eq!(rt; first.bytes(), Some(b"".as_slice()));
    Ok(())
}

#[test]
fn a_sink_without_room_takes_on_and_tells_nothing(rt: HostRuntime) -> Result<(), Fail> {
    let mut sink = SureSink::new(rt.alloc(), 4)?;
    write_all(&mut sink, b"abcd")?;
    assert_eq!(rt; sink.bytes(), Some(b"abcd".as_slice()));
    write_all(&mut sink, b"e")?;
    assert_eq!(rt; sink.bytes(), None);
    write_all(&mut sink, b"f")?;
    assert_eq!(rt; sink.bytes(), None);
    Ok(())
}

const HELD: [HeldFile<'static>; 4] = [
    HeldFile {
        path: "a.conf",
        content: b"one",
    },
    HeldFile {
        path: "b.conf",
        content: b"two",
    },
    HeldFile {
        path: "a.conf",
        content: b"three",
    },
    HeldFile {
        path: "a.conf ",
        content: b"behind a blank",
    },
];

// The content that a path opens, `no` where it isn't opened.
fn opened<F: Files>(alloc: Global, files: &mut F, path: &str) -> Result<String, Fail> {
    match files.open(path) {
        Opened::Failed => Ok(String::from_str(alloc, "no")?),
        Opened::Open(mut source) => {
            let text = pieces(alloc, &mut source, 16);
            files.give_back(source);
            text
        }
    }
}

#[test]
fn a_file_is_opened_by_its_path(rt: HostRuntime) -> Result<(), Fail> {
    let alloc = rt.alloc();
    let mut sure = SureFiles::new(&HELD);
    let mut listed = MemoryFiles::new(&HELD, &[], &[]);
    for (path, wanted) in [
        ("a.conf", "one|"),
        ("b.conf", "two|"),
        ("a.conf ", "behind a blank|"),
        (" a.conf", ""),
        ("c.conf", ""),
        ("", ""),
    ] {
        assert_eq!(rt; opened(alloc, &mut sure, path)?.as_str(), wanted, "{path}");
        assert_eq!(rt;
            opened(alloc, &mut sure, path)?.as_str(),
            wanted,
            "{path} again"
        );
        assert_eq!(rt;
            opened(alloc, &mut listed, path)?.as_str(),
            wanted,
            "{path}"
        );
    }
    assert_eq!(rt; listed.faults(), 0);
    for out in [1, 2] {
        assert!(rt; matches!(sure.open("a.conf"), Opened::Open(_)));
        assert!(rt; matches!(listed.open("a.conf"), Opened::Open(_)));
        assert_eq!(rt; (sure.lent(), listed.lent()), (Some(out), Some(out)));
    }
    Ok(())
}

#[test]
fn faults_of_opening_and_of_what_was_opened_count(rt: HostRuntime) -> Result<(), Fail> {
    let alloc = rt.alloc();
    let mut files = MemoryFiles::new(&HELD, &[1], &[1]);
    for (wanted, faults) in [("one|!", 1), ("no", 2), ("one|!", 3)] {
        assert_eq!(rt; opened(alloc, &mut files, "a.conf")?.as_str(), wanted);
        assert_eq!(rt; files.faults(), faults, "{wanted}");
    }
    Ok(())
}

#[test]
fn a_file_is_read_whole_where_it_has_at_most_the_limit(rt: HostRuntime) -> Result<(), Fail> {
    let alloc = rt.alloc();
    let table: [(&str, usize, Result<&[u8], Unread>); 8] = [
        ("b.conf", 3, Ok(b"two")),
        ("b.conf", 2, Err(Unread::Long)),
        ("b.conf", 0, Err(Unread::Long)),
        ("b.conf", usize::MAX, Ok(b"two")),
        ("a.conf", 5, Ok(b"one")),
        ("a.conf ", 14, Ok(b"behind a blank")),
        ("c.conf", 0, Ok(b"")),
        ("c.conf", 9, Ok(b"")),
    ];
    for (path, limit, wanted) in table {
        let mut files = MemoryFiles::new(&HELD, &[], &[]);
        let bytes = read_file(alloc, &mut files, path, limit);
        let answer = bytes
            .as_ref()
            .map(|bytes| bytes.as_slice())
            .map_err(|error| *error);
        assert_eq!(rt; answer, wanted, "{path}, {limit}");
        assert_eq!(rt; files.faults(), 0, "{path}, {limit}");
        assert_eq!(rt; files.lent(), Some(0), "{path}, {limit}");
    }
    Ok(())
}

#[test]
fn a_file_that_fails_counts_once_and_the_next_reading_goes_on(rt: HostRuntime) -> Result<(), Fail> {
    let alloc = rt.alloc();
    let table: [(&[u64], &[u64], &str); 4] = [
        (&[0], &[], "it isn't opened"),
        (&[0], &[0], "neither is it read"),
        (&[], &[0], "its first read fails"),
        (&[], &[1], "the read behind its bytes fails"),
    ];
    for (failing, failing_reads, what) in table {
        let mut files = MemoryFiles::new(&HELD, failing, failing_reads);
        let answer = read_file(alloc, &mut files, "b.conf", 100).err();
        assert_eq!(rt; answer, Some(Unread::Fault), "{what}");
        assert_eq!(rt; files.faults(), 1, "{what}");
        assert_eq!(rt; files.lent(), Some(0), "{what}");
    }
    let mut files = MemoryFiles::new(&HELD, &[0, 2], &[]);
    assert!(rt; read_file(alloc, &mut files, "b.conf", 3).is_err());
    assert_eq!(rt;
        read_file(alloc, &mut files, "b.conf", 3)?.as_slice(),
        b"two".as_slice()
    );
    assert!(rt; read_file(alloc, &mut files, "b.conf", 3).is_err());
    assert_eq!(rt; files.faults(), 2);
    Ok(())
}

#[test]
fn two_mebibytes_are_read_and_written(rt: HostRuntime) -> Result<(), Fail> {
    let alloc = rt.alloc();
    let content = vec![in alloc; 7; 2 << 20]?;
    let bytes = read_all(alloc, &mut SureSource::new(&content), 1 << 40)?;
    assert!(rt; bytes.as_slice() == content.as_slice());
    let held = [HeldFile {
        path: "large",
        content: &content,
    }];
    let bytes = read_file(alloc, &mut SureFiles::new(&held), "large", 2 << 20)?;
    assert!(rt; bytes.as_slice() == content.as_slice());
    let mut sink = SureSink::in_steps(alloc, 2 << 20, 65_536)?;
    write_all(&mut sink, &content)?;
    assert!(rt; sink.bytes() == Some(content.as_slice()));
    Ok(())
}
