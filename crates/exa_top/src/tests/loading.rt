//! What `load` counts, and how it ends.
use super::*;

// How many routes are loaded, and what is written.
const LOADS: [(&str, &str); 3] = [
    (
        "1",
        "routes 1\nlines 2\ndone 2\nerror 0\nmessages 3\nbytes 97\nannounced 1\nwithdrawn 1\n\
         left 0\n",
    ),
    (
        "2",
        "routes 2\nlines 3\ndone 3\nerror 0\nmessages 3\nbytes 101\nannounced 2\nwithdrawn 1\n\
         left 1\n",
    ),
    (
        "100",
        "routes 100\nlines 150\ndone 150\nerror 0\nmessages 3\nbytes 689\nannounced 100\n\
         withdrawn 50\nleft 50\n",
    ),
];

#[test]
fn what_a_load_sends_is_counted(rt: HostRuntime) -> Result<(), Fail> {
    for (count, wanted) in LOADS {
        // The input fails, and isn't read.
        let done = run(rt.alloc(), &["load", count], ROUTE, &[0], &[])?;
        assert_eq!(rt; done.status, Status::Ok, "{count}");
        assert_eq!(rt; done.output.as_str(), wanted, "{count}");
        assert_eq!(rt; done.reads_failed, 0, "{count}");
    }
    Ok(())
}

#[test]
fn a_load_whose_counts_are_not_written_is_a_write_fault(rt: HostRuntime) -> Result<(), Fail> {
    let done = run(rt.alloc(), &["load", "1"], "", &[], &[1])?;
    assert_eq!(rt; done.status, Status::WriteFault);
    assert_eq!(rt; done.output.as_str(), "routes 1\nlines 2\ndon");
    assert_eq!(rt; done.writes_failed, 1);
    Ok(())
}

#[test]
fn a_load_has_one_to_a_million_routes(rt: HostRuntime) -> Result<(), Fail> {
    let table: [&[&str]; 7] = [
        &["load"],
        &["load", "0"],
        &["load", "01"],
        &["load", "1000001"],
        &["load", "4294967296"],
        &["load", "one"],
        &["load", "1", "2"],
    ];
    for words in table {
        let refused = run(rt.alloc(), words, "", &[], &[])?;
        assert_eq!(rt; refused.status, Status::Usage);
        assert_eq!(rt; refused.output.as_str(), "");
    }
    Ok(())
}
