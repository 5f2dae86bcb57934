use super::*;
use book_history::NotRead;
use config_model::{ConfigFault, ConfigKind, Slots};
use outside::{HeldFile, MemoryFiles};
use std::test::Fail;

const SLOTS: Slots = Slots {
    helpers: 16,
    peers: 64,
};

const HELD: [HeldFile<'static>; 2] = [
    HeldFile {
        path: "good.conf",
        content: b"process h { run /bin/cat; }",
    },
    HeldFile {
        path: "bad.conf",
        content: b"process h { run cat;",
    },
];

#[test]
fn a_file_that_is_a_configuration_gives_it(rt: HostRuntime) -> Result<(), Fail> {
    let mut files = MemoryFiles::new(&HELD, &[], &[]);
    let read = read_config_at(rt.alloc(), &mut files, "good.conf", SLOTS);
    let Ok(config) = read else {
        return Err(Fail::from("the configuration"));
    };
    assert_eq!(rt; config.processes().len(), 1);
    assert_eq!(rt; files.lent(), Some(0));
    Ok(())
}

#[test]
fn a_file_that_is_none_or_is_not_read_gives_why(rt: HostRuntime) -> Result<(), Fail> {
    let unfinished = NotRead::Refused(ConfigFault {
        line: 1,
        column: 21,
        kind: ConfigKind::Token,
    });
    let table: [(&str, &[u64], &[u64], NotRead, u64); 3] = [
        ("bad.conf", &[], &[], unfinished, 0),
        ("good.conf", &[0], &[], NotRead::ReadFault, 1),
        ("good.conf", &[], &[0], NotRead::ReadFault, 1),
    ];
    for (path, failing, failing_reads, why, faults) in &table {
        let mut files = MemoryFiles::new(&HELD, failing, failing_reads);
        let read = read_config_at(rt.alloc(), &mut files, path, SLOTS);
        assert_eq!(rt; read.err(), Some(*why));
        assert_eq!(rt; files.faults(), *faults);
        assert_eq!(rt; files.lent(), Some(0));
    }
    Ok(())
}
