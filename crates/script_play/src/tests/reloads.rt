//! Files that a reload names.
use super::*;
use crate::config_file::configured;
use config_model::{ConfigFault, ConfigKind};

const SLOTS: Slots = Slots {
    helpers: MAX_HELPERS,
    peers: MAX_PEERS,
};

// The files that are at hand.
fn held() -> [HeldFile<'static>; 2] {
    [
        HeldFile {
            path: "one.conf",
            content: ONE.as_bytes(),
        },
        HeldFile {
            path: "unfinished.conf",
            content: UNFINISHED.as_bytes(),
        },
    ]
}

#[test]
fn a_file_that_gives_no_configuration_says_why(rt: HostRuntime) -> Result<(), Fail> {
    let unfinished = Status::ConfigRefused(ConfigFault {
        line: 1,
        column: 21,
        kind: ConfigKind::Token,
    });
    let table: [(&str, &[u64], &[u64], Option<Status>, u64); 4] = [
        ("one.conf", &[], &[], None, 0),
        ("unfinished.conf", &[], &[], Some(unfinished), 0),
        ("one.conf", &[0], &[], Some(Status::ConfigRead), 1),
        ("one.conf", &[], &[0], Some(Status::ConfigRead), 1),
    ];
    let held = held();
    for (path, failing, failing_reads, why, faults) in &table {
        let mut files = MemoryFiles::new(&held, failing, failing_reads);
        let read = configured(rt.alloc(), &mut files, path, SLOTS);
        assert_eq!(rt; read.err(), *why, "{path}");
        assert_eq!(rt; files.faults(), *faults, "{path}");
        assert!(rt; files.lent() == Some(0), "{path}");
    }
    Ok(())
}
