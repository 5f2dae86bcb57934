//! How `check` ends, by what its file holds and by what fails.
use super::*;
use arrayvec::ArrayVec;
use outside::{HeldFile, MemoryFiles};

const FILE: &str = "exabgpd.conf";

// How `check` ended, its line for standard error, what it wrote, how often the files and the input failed, and how many
// sources weren't given back.
#[derive(Drop)]
struct Checked {
    status: Status,
    line: String,
    output: String,
    files_failed: u64,
    reads_failed: u64,
    lent: Option<u64>,
}

// The calls that fail: of opening, of reading what was opened, and of writing.
#[derive(Clone, Copy)]
struct Failing<'a> {
    opens: &'a [u64],
    reads: &'a [u64],
    writes: &'a [u64],
}

const NONE: Failing<'static> = Failing {
    opens: &[],
    reads: &[],
    writes: &[],
};

// Checks a file. Any read of the input fails, and the sink takes two bytes a call.
fn check(alloc: Global, content: &str, failing: Failing<'_>) -> Result<Checked, Fail> {
    let held = [HeldFile {
        path: FILE,
        content: content.as_bytes(),
    }];
    let mut files = MemoryFiles::new(&held, failing.opens, failing.reads);
    let mut source = MemorySource::new(ROUTE.as_bytes(), &[0]);
    let mut sink = MemorySink::in_steps(alloc, ROOM, 2, failing.writes)?;
    let words = ["check", FILE];
    let status = exabgp_text(alloc, &words, &mut files, &mut source, &mut sink);
    let mut line = ArrayVec::new();
    status.put_line(&mut line);
    let bytes = sink.bytes().ok_or("the sink has room")?;
    Ok(Checked {
        status,
        line: String::from_utf8(Vec::from_slice(alloc, &line)?)?,
        output: String::from_utf8(Vec::from_slice(alloc, bytes)?)?,
        files_failed: files.faults(),
        reads_failed: source.faults(),
        lent: files.lent(),
    })
}

#[test]
fn a_file_that_is_a_configuration_is_ok(rt: HostRuntime) -> Result<(), Fail> {
    let table = [
        ("an empty file", ""),
        ("a remark alone", "# nothing yet"),
        (
            "a process and a neighbour",
            "process h { run /bin/cat; }\n\
             neighbor 192.0.2.2 { local-address 192.0.2.9; local-as 65001; peer-as 65002;\n\
             api { processes [ h ]; } }\n",
        ),
    ];
    for (case, content) in table {
        let done = check(rt.alloc(), content, NONE)?;
        assert_eq!(rt; done.status, Status::Ok, "{case}");
        assert_eq!(rt; done.line.as_str(), "", "{case}");
        assert_eq!(rt; done.output.as_str(), "ok\n", "{case}");
        assert_eq!(rt; done.files_failed, 0, "{case}");
        assert_eq!(rt; done.reads_failed, 0, "{case}");
        assert!(rt; done.lent == Some(0), "{case}");
    }
    Ok(())
}

// Files that are refused, and the line for each.
const REFUSED: [(&str, &str); 5] = [
    ("process h { run cat;", "exabgp: configuration 1:21 token\n"),
    (
        "process h { run cat; run cat; }",
        "exabgp: configuration 1:22 twice\n",
    ),
    ("process h { }", "exabgp: configuration 1:13 missing\n"),
    (
        "neighbor 192.0.2.2 { local-address ::1; local-as 65001; peer-as 65002; }",
        "exabgp: configuration 1:36 family\n",
    ),
    (
        "neighbor 192.0.2.2 {\n\
         local-address 192.0.2.9; local-as 65001; peer-as 65002;\n\
         api { processes [ h ]; }\n\
         }\n",
        "exabgp: configuration 3:19 process\n",
    ),
];

#[test]
fn a_refused_file_is_told_by_its_first_fault(rt: HostRuntime) -> Result<(), Fail> {
    for (content, line) in REFUSED {
        let done = check(rt.alloc(), content, NONE)?;
        assert!(rt; is_refused(&done, line), "{line}");
    }
    let mut crowd = String::new(rt.alloc());
    for number in 0..17 {
        let process = format!(in rt.alloc(); "process p{number} {{ run cat; }}\n")?;
        crowd.push_str(process.as_str())?;
    }
    let done = check(rt.alloc(), crowd.as_str(), NONE)?;
    assert!(rt; is_refused(&done, "exabgp: configuration 17:1 many\n"));
    Ok(())
}

// Whether a file was refused with this line, and all else left as it was.
fn is_refused(done: &Checked, line: &str) -> bool {
    done.line.as_str() == line
        && done.status.number() == 4
        && done.output.is_empty()
        && done.files_failed == 0
        && done.reads_failed == 0
        && done.lent == Some(0)
}

#[test]
fn a_file_has_1048576_bytes_at_most(rt: HostRuntime) -> Result<(), Fail> {
    let mut content = String::new(rt.alloc());
    for _ in 0..1_048_576 {
        content.push(' ')?;
    }
    let done = check(rt.alloc(), content.as_str(), NONE)?;
    assert_eq!(rt; done.status, Status::Ok);
    content.push(' ')?;
    let done = check(rt.alloc(), content.as_str(), NONE)?;
    assert!(rt; is_refused(&done, "exabgp: configuration 0:0 long\n"));
    Ok(())
}

#[test]
fn a_fault_of_the_files_or_of_the_output_ends_check(rt: HostRuntime) -> Result<(), Fail> {
    let table = [
        (
            "opening fails",
            Failing {
                opens: &[0],
                ..NONE
            },
            Status::ConfigRead,
            1,
            "",
        ),
        (
            "a read fails",
            Failing {
                reads: &[1],
                ..NONE
            },
            Status::ConfigRead,
            1,
            "",
        ),
        (
            "a write fails",
            Failing {
                writes: &[1],
                ..NONE
            },
            Status::WriteFault,
            0,
            "ok",
        ),
    ];
    for (case, failing, status, files_failed, output) in table {
        let done = check(rt.alloc(), "# a remark\n", failing)?;
        assert_eq!(rt; done.status, status, "{case}");
        assert_eq!(rt; done.files_failed, files_failed, "{case}");
        assert_eq!(rt; done.reads_failed, 0, "{case}");
        assert_eq!(rt; done.output.as_str(), output, "{case}");
        assert!(rt; done.lent == Some(0), "{case}");
    }
    Ok(())
}
