//! Scripts that aren't played to their end: what was answered before stays written.
use super::*;

// A refused script, its line, and what was answered before.
const REFUSED: [(&str, u64, &str); 8] = [
    ("cut 64\n", 1, ""),
    ("control\ncut 64\n", 2, "nothing\n"),
    ("control\ncut 64", 2, "nothing\n"),
    ("control\n\n# x\nfrob\ncontrol\n", 4, "nothing\n"),
    ("control \n", 1, ""),
    // No look at the slot told its settings.
    ("up 0 ipv4\n", 1, ""),
    ("peer 1\nup 0 ipv4\n", 2, "absent\n"),
    ("peer 0\nup 0 ipv4\nup 1 ipv4\n", 3, "peer\nup\n"),
];

#[test]
fn a_script_is_refused_at_its_first_line_that_is_none(rt: HostRuntime) -> Result<(), Fail> {
    for (script, line, wanted) in REFUSED {
        let done = run(rt.alloc(), ONE, script, ALL_WELL)?;
        assert_eq!(rt; done.status, Status::ScriptRefused(line), "{script}");
        assert_eq!(rt; done.output.as_str(), wanted, "{script}");
    }
    Ok(())
}

#[test]
fn an_empty_script_writes_nothing(rt: HostRuntime) -> Result<(), Fail> {
    let done = run(rt.alloc(), "", "", ALL_WELL)?;
    assert_eq!(rt; done.status, Status::Ok);
    assert_eq!(rt; done.output.as_str(), "");
    Ok(())
}

// A remark of so many bytes, without a line feed.
fn remark(alloc: Global, length: usize) -> Result<String, Fail> {
    let mut text = String::new(alloc);
    for _ in 0..length {
        text.push('#')?;
    }
    Ok(text)
}

// A line of more bytes is refused before its end is met. So the read that would fail isn't reached.
#[test]
fn a_line_has_at_most_65600_bytes(rt: HostRuntime) -> Result<(), Fail> {
    let alloc = rt.alloc();
    let fits = format!(in alloc; "{}\ncontrol\n", remark(alloc, 65_600)?.as_str())?;
    let done = run(alloc, ONE, fits.as_str(), ALL_WELL)?;
    assert_eq!(rt; done.status, Status::Ok);
    assert_eq!(rt; done.output.as_str(), "nothing\n");
    let calls = Calls {
        reads: &[2],
        ..ALL_WELL
    };
    let long = format!(in alloc; "{}", remark(alloc, 131_072)?.as_str())?;
    let refused = run(alloc, ONE, long.as_str(), calls)?;
    assert_eq!(rt; refused.status, Status::ScriptRefused(1));
    assert_eq!(rt; refused.reads_failed, 0);
    Ok(())
}

#[test]
fn what_was_answered_before_a_fault_stays_written(rt: HostRuntime) -> Result<(), Fail> {
    let script = "control\nspawn 0 0\n";
    let alloc = rt.alloc();
    let unread = Calls {
        reads: &[1],
        ..ALL_WELL
    };
    let done = run(alloc, ONE, script, unread)?;
    assert_eq!(rt; done.status, Status::ReadFault);
    assert_eq!(rt; done.output.as_str(), "nothing\ngo 1\n");
    assert_eq!(rt; done.reads_failed, 1);
    let unwritten = Calls {
        writes: &[1],
        ..ALL_WELL
    };
    let done = run(alloc, ONE, script, unwritten)?;
    assert_eq!(rt; done.status, Status::WriteFault);
    assert_eq!(rt; done.output.as_str(), "nothing\n");
    assert_eq!(rt; done.writes_failed, 1);
    Ok(())
}

#[test]
fn a_file_that_is_not_opened_ends_the_script(rt: HostRuntime) -> Result<(), Fail> {
    let unopened = Calls {
        opens: &[0],
        ..ALL_WELL
    };
    let done = run(
        rt.alloc(),
        ONE,
        "control\nreload h.conf\ncontrol\n",
        unopened,
    )?;
    assert_eq!(rt; done.status, Status::ConfigRead);
    assert_eq!(rt; done.output.as_str(), "nothing\n");
    assert_eq!(rt; done.files_failed, 1);
    assert!(rt; done.lent == Some(0));
    Ok(())
}
