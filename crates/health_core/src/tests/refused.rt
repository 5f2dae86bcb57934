//! Files that are refused.
use crate::{ConfigError, read_health};
use std::alloc::Global;
use std::test::Fail;

// A file, and its first fault.
const REFUSED: [(&str, &str); 41] = [
    ("", "0:0 missing"),
    ("run x;", "0:0 missing"),
    ("prefix 10.0.0.0/24; rise 1;", "0:0 missing"),
    ("frob 1;", "1:1 token"),
    (";", "1:1 token"),
    ("rise", "1:5 token"),
    ("rise 1", "1:7 token"),
    ("rise 1\n", "2:1 token"),
    ("rise 1 2;", "1:8 token"),
    ("rise 0;", "1:6 token"),
    ("rise 1001;", "1:6 token"),
    ("rise 01;", "1:6 token"),
    ("fall 0;", "1:6 token"),
    ("fall 1001;", "1:6 token"),
    ("every 0;", "1:7 token"),
    ("every 86400001;", "1:7 token"),
    ("turns 0;", "1:7 token"),
    ("turns 1099511627777;", "1:7 token"),
    ("turns 18446744073709551617;", "1:7 token"),
    ("up-med 4294967296;", "1:8 token"),
    ("up-med -1;", "1:8 token"),
    ("down up;", "1:6 token"),
    ("down med;", "1:9 token"),
    ("down med 4294967296;", "1:10 token"),
    ("run;", "1:4 token"),
    ("run a b;", "1:7 token"),
    ("run \"a;", "1:5 token"),
    ("prefix;", "1:7 token"),
    ("prefix 10.0.0.1/24;", "1:8 token"),
    ("prefix 10.0.0.0/24, 10.0.1.0/24;", "1:19 token"),
    ("prefix \"10.0.0.0/24\";", "1:8 token"),
    ("next-hop own;", "1:10 token"),
    ("rise 1; fall 1; rise 1;", "1:17 twice"),
    ("down withdraw; down med 1;", "1:16 twice"),
    ("run a; run b;", "1:8 twice"),
    ("prefix 10.0.0.0/24; prefix 10.0.1.0/24;", "1:21 twice"),
    ("prefix 10.0.0.0/24 10.0.1.0/24 10.0.0.0/24;", "1:32 twice"),
    ("prefix 10.0.0.0/24 2001:db8::/32;", "1:20 family"),
    ("next-hop 192.0.2.1; prefix 2001:db8::/32;", "1:28 family"),
    ("prefix 10.0.0.0/24; next-hop ::1;", "1:30 family"),
    ("prefix 2001:db8::/32; next-hop 192.0.2.1;", "1:32 family"),
];

// The first fault of a file as it is printed, or why there is none.
fn fault(alloc: Global, text: &[u8]) -> Result<String, Fail> {
    match read_health(alloc, text) {
        Err(ConfigError::Refused(fault)) => Ok(format!(in alloc; "{fault}")?),
        Err(ConfigError::NoMemory) => Ok(format!(in alloc; "no memory")?),
        Ok(_) => Ok(format!(in alloc; "none")?),
    }
}

#[test]
fn a_file_is_refused_at_its_first_fault(rt: HostRuntime) -> Result<(), Fail> {
    'files: for (text, wanted) in REFUSED {
        assert_eq!(rt;
            fault(rt.alloc(), text.as_bytes())?.as_str(),
            wanted,
            "{text}"
        );
    }
    Ok(())
}

// A statement with so many prefixes, and more behind them.
fn listing(alloc: Global, count: u32, more: &str) -> Result<String, Fail> {
    let mut text = String::new(alloc);
    text.push_str("prefix")?;
    'prefixes: for n in 0..count {
        let (high, low) = (n / 256 % 256, n % 256);
        text.push_str(format!(in alloc; " 10.{high}.{low}.0/24")?.as_str())?;
    }
    text.push_str(more)?;
    Ok(text)
}

#[test]
fn there_are_1024_prefixes_at_most(rt: HostRuntime) -> Result<(), Fail> {
    let full = listing(rt.alloc(), 1_024, "; run x;")?;
    assert_eq!(rt; fault(rt.alloc(), full.as_bytes())?.as_str(), "none");
    let over = listing(rt.alloc(), 1_024, "\n11.0.0.0/8;")?;
    assert_eq!(rt; fault(rt.alloc(), over.as_bytes())?.as_str(), "2:1 many");
    Ok(())
}

#[test]
fn a_prefix_too_many_is_many_only_where_nothing_else_is_wrong(rt: HostRuntime) -> Result<(), Fail> {
    let again = listing(rt.alloc(), 1_024, "\n10.0.0.0/24;")?;
    assert_eq!(rt; fault(rt.alloc(), again.as_bytes())?.as_str(), "2:1 twice");
    let other = listing(rt.alloc(), 1_024, "\n::/0;")?;
    assert_eq!(rt; fault(rt.alloc(), other.as_bytes())?.as_str(), "2:1 family");
    Ok(())
}

// A statement `run` with so many bytes.
fn running(alloc: Global, count: u32, more: &str) -> Result<String, Fail> {
    let mut text = String::new(alloc);
    text.push_str("run ")?;
    'bytes: for _ in 0..count {
        text.push_str("x")?;
    }
    text.push_str(more)?;
    Ok(text)
}

#[test]
fn a_program_has_1024_bytes_at_most(rt: HostRuntime) -> Result<(), Fail> {
    let full = running(rt.alloc(), 1_024, "; prefix ::/0;")?;
    assert_eq!(rt; fault(rt.alloc(), full.as_bytes())?.as_str(), "none");
    let over = running(rt.alloc(), 1_025, "; prefix ::/0;")?;
    assert_eq!(rt; fault(rt.alloc(), over.as_bytes())?.as_str(), "1:1030 many");
    let unended = running(rt.alloc(), 1_025, " x;")?;
    assert_eq!(rt;
        fault(rt.alloc(), unended.as_bytes())?.as_str(),
        "1:1031 token"
    );
    Ok(())
}

#[test]
fn a_file_of_more_than_1048576_bytes_is_too_long(rt: HostRuntime) -> Result<(), Fail> {
    let spaces = vec![in rt.alloc(); b' '; 1_048_577]?;
    assert_eq!(rt; fault(rt.alloc(), &spaces)?.as_str(), "0:0 long");
    assert_eq!(rt; fault(rt.alloc(), &spaces[1..])?.as_str(), "0:0 missing");
    Ok(())
}
