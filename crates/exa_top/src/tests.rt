use super::*;
use arrayvec::ArrayVec;
use config_model::{ConfigFault, ConfigKind};
use outside::{MemorySink, MemorySource, SureFiles};
use std::alloc::Global;
use std::test::Fail;

mod checking;
mod decoding;
mod encoding;
mod loading;
mod playing;
mod watching;

const ROUTE: &str = "announce route 10.0.0.0/24 next-hop 192.0.2.1\n";

// How a command ended, what it wrote, and how often its input and its output failed.
#[derive(Drop)]
struct Outcome {
    status: Status,
    output: String,
    reads_failed: u64,
    writes_failed: u64,
}

// How many bytes the sink of a test keeps.
const ROOM: usize = 1 << 20;

// Runs a command whose listed reads and writes fail, and whose sink takes 20 bytes a call.
fn run(
    alloc: Global,
    words: &[&str],
    input: &str,
    failing_reads: &[u64],
    failing_writes: &[u64],
) -> Result<Outcome, Fail> {
    let mut files = SureFiles::new(&[]);
    let mut source = MemorySource::new(input.as_bytes(), failing_reads);
    let mut sink = MemorySink::in_steps(alloc, ROOM, 20, failing_writes)?;
    let status = exabgp_text(alloc, words, &mut files, &mut source, &mut sink);
    let bytes = sink.bytes().ok_or("the sink has room")?;
    Ok(Outcome {
        status,
        output: String::from_utf8(Vec::from_slice(alloc, bytes)?)?,
        reads_failed: source.faults(),
        writes_failed: sink.faults(),
    })
}

// Lines, and what is written for each.
const LINES: [(&str, &str); 12] = [
    (
        "announce route 10.0.0.0/24 next-hop 192.0.2.1 med 5\n",
        "ok\n",
    ),
    (
        "neighbor 192.0.2.2 withdraw route 2001:db8::/32\r\n",
        "ok\n",
    ),
    ("# a remark\n", "ok\n"),
    (" \t\n", ""),
    ("shutdown\n", "ok\n"),
    (
        "announce route 10.0.0.1/24 next-hop 192.0.2.1\n",
        "error token 3\n",
    ),
    ("announce route 10.0.0.0/24\n", "error token 4\n"),
    (
        "announce route 10.0.0.0/24 next-hop ::1\n",
        "error token 5\n",
    ),
    (
        "announce route 10.0.0.0/24 next-hop self med 5 med 6\n",
        "error token 8\n",
    ),
    ("Reload\n", "error token 1\n"),
    ("teardown 256\n", "error token 2\n"),
    ("reload", ""),
];

#[test]
fn of_each_line_it_is_written_how_it_reads(rt: HostRuntime) -> Result<(), Fail> {
    let mut input = String::new(rt.alloc());
    let mut answers = String::new(rt.alloc());
    for (line, answer) in LINES {
        input.push_str(line)?;
        answers.push_str(answer)?;
    }
    let done = run(rt.alloc(), &["parse"], input.as_str(), &[], &[])?;
    assert_eq!(rt; done.status, Status::Ok);
    assert_eq!(rt; done.output.as_str(), answers.as_str());
    Ok(())
}

#[test]
fn how_lines_read_is_written_before_more_is_read(rt: HostRuntime) -> Result<(), Fail> {
    // The line that stands behind the others has come in part.
    let input = "shutdown\nReload\nreload";
    let unread = run(rt.alloc(), &["parse"], input, &[0], &[])?;
    assert_eq!(rt; unread.status, Status::ReadFault);
    assert_eq!(rt; unread.output.as_str(), "");
    let broken_off = run(rt.alloc(), &["parse"], input, &[1], &[])?;
    assert_eq!(rt; broken_off.status, Status::ReadFault);
    assert_eq!(rt; broken_off.reads_failed, 1);
    assert_eq!(rt; broken_off.output.as_str(), "ok\nerror token 1\n");
    Ok(())
}

#[test]
fn a_list_over_its_limit_and_a_long_line_are_told_apart(rt: HostRuntime) -> Result<(), Fail> {
    let mut input = String::new(rt.alloc());
    input.push_str("announce route 10.0.0.0/24 next-hop self community [")?;
    for number in 0..201 {
        input.push_str(format!(in rt.alloc(); " 65001:{number}")?.as_str())?;
    }
    input.push_str(" ]\n")?;
    input.push_str(line_of(rt.alloc(), "reload", 65_535)?.as_str())?;
    input.push_str(line_of(rt.alloc(), "reload", 65_536)?.as_str())?;
    let done = run(rt.alloc(), &["parse"], input.as_str(), &[], &[])?;
    assert_eq!(rt;
        done.output.as_str(),
        "error many 208 200\nok\nerror long\n"
    );
    Ok(())
}

#[test]
fn help_and_version_write_their_texts(rt: HostRuntime) -> Result<(), Fail> {
    let version = run(rt.alloc(), &["--version"], ROUTE, &[0], &[])?;
    assert_eq!(rt; version.status, Status::Ok);
    assert_eq!(rt; version.output.as_str(), "exabgpd 0.1.0\n");
    let help = run(rt.alloc(), &["--help"], ROUTE, &[0], &[])?;
    assert_eq!(rt; help.status, Status::Ok);
    assert!(rt;
        help.output
            .as_str()
            .starts_with("usage: exabgpd run CONFIG\n")
    );
    Ok(())
}

#[test]
fn words_that_spell_no_command_are_usage_and_touch_nothing(rt: HostRuntime) -> Result<(), Fail> {
    let table: [&[&str]; 13] = [
        &[],
        &["frob"],
        &["encode"],
        &["check"],
        &["check", "one.conf", "two.conf"],
        &["play"],
        &["play", "one.conf", "two.conf"],
        &["parse", "one.conf"],
        &["encode", "65001", "65002"],
        &["encode", "65001", "65002", "192.0.2.9", "192.0.2.10"],
        &["encode", "0", "65002", "192.0.2.9"],
        &["encode", "65001", "65002", "192.0.2.256"],
        &["--version", "--help"],
    ];
    for words in table {
        let refused = run(rt.alloc(), words, ROUTE, &[0], &[0])?;
        assert_eq!(rt; refused.status, Status::Usage);
        assert_eq!(rt; refused.output.as_str(), "");
        assert_eq!(rt; refused.reads_failed, 0);
        assert_eq!(rt; refused.writes_failed, 0);
    }
    Ok(())
}

// A text filled up with spaces to so many bytes, as a line.
fn line_of(alloc: Global, text: &str, count: usize) -> Result<String, Fail> {
    let mut line = String::new(alloc);
    line.push_str(text)?;
    for _ in text.len()..count {
        line.push(' ')?;
    }
    line.push('\n')?;
    Ok(line)
}

#[test]
fn each_status_has_its_number_and_its_line(rt: HostRuntime) -> Result<(), Fail> {
    let fault = ConfigFault {
        line: u32::MAX,
        column: u32::MAX,
        kind: ConfigKind::NoProcess,
    };
    let table: [(Status, u8, &str); 10] = [
        (Status::Ok, 0, ""),
        (Status::Usage, 2, "exabgp: usage\n"),
        (Status::ConfigRead, 3, "exabgp: configuration not read\n"),
        (
            Status::ConfigRefused(fault),
            4,
            "exabgp: configuration 4294967295:4294967295 no-process\n",
        ),
        (
            Status::ScriptRefused(u64::MAX),
            5,
            "exabgp: script 18446744073709551615\n",
        ),
        (Status::ReadFault, 6, "exabgp: read fault\n"),
        (Status::WriteFault, 7, "exabgp: write fault\n"),
        (Status::NoCrew, 8, "exabgp: no crew\n"),
        (Status::NoMemory, 9, "exabgp: no memory\n"),
        (Status::InputLong, 10, "exabgp: input too long\n"),
    ];
    for (status, number, line) in table {
        let mut text = ArrayVec::new();
        status.put_line(&mut text);
        assert_eq!(rt; status.number(), number, "{line}");
        assert!(rt; text.as_slice() == line.as_bytes(), "{line}");
    }
    Ok(())
}
