//! What no clause says: that a keeper ends once it is told to, and what a reload leaves in the book.
ghost use Rattle.std.specs.Prelude.{◌≡◌, IfOk};
ghost use Rattle.book_gate.specs.Known.{first_known};

use crate::keeping::reload;
use crate::{Keeper, KeeperParts};
use book_core::{Book, ControlCall, PeerCall, StopCall};
use book_gate::{Gate, Opened, Pass};
use book_history::{Control, Peer};
use config_files::read_config_at;
use config_model::Slots;
use outside::{HeldFile, MemoryFiles, MemoryPause};
use std::alloc::Global;
use std::hash::RandomState;
use std::snapshot::Snapshot;
use std::sync::Wait;
use std::test::Fail;

const SLOTS: Slots = Slots {
    helpers: 2,
    peers: 2,
};

const EMPTY: &str = "empty.conf";

const ONE: &str = "one.conf";

const HELD: [HeldFile<'static>; 2] = [
    HeldFile {
        path: EMPTY,
        content: b"",
    },
    HeldFile {
        path: ONE,
        content: b"neighbor 192.0.2.2 { local-address 192.0.2.9; local-as 65001; peer-as 65002; }",
    },
];

// A gate round the book of an empty configuration.
fn opened(rt: &HostRuntime) -> Result<Opened<Book>, Fail>
    ensures { IfOk result (λ opened. opened.pass.gate ≡ opened.gate) }
{
    let mut files = MemoryFiles::new(&HELD, &[], &[]);
    let Ok(config) = read_config_at(rt.alloc(), &mut files, EMPTY, SLOTS) else {
        return Err("no configuration".into());
    };
    let start = Snapshot::of(&config);
    let book = Book::open(rt.alloc(), config, RandomState::new(rt)?)?;
    match Gate::open(rt.alloc(), book, start) {
        Ok(opened) => Ok(opened),
        Err(_) => Err("no gate".into()),
    }
}

// Whether there is a neighbour in the first slot.
fn is_there<R: Wait>(rt: &R, gate: &Gate<Book>, pass: &mut Pass<Book>) -> bool
    requires { pass.old.gate ≡ gate.now }
    ensures { pass.new.gate ≡ gate.now }
{
    matches!(gate.enter(rt, pass, PeerCall { n: 0 }), Peer::Is(_))
}

// Reloads by the file at a path, and tells how often the files failed.
fn reloads<R: Wait>(
    rt: &R,
    alloc: Global,
    gate: &Gate<Book>,
    pass: &mut Pass<Book>,
    path: &str,
    failing: &[u64],
) -> u64
    requires { pass.old.gate ≡ gate.now }
    ensures { pass.new.gate ≡ gate.now }
{
    let mut files = MemoryFiles::new(&HELD, failing, &[]);
    reload(rt, alloc, gate, pass, &mut files, path, SLOTS);
    files.faults()
}

#[test]
fn a_reload_brings_what_the_file_says(rt: HostRuntime) -> Result<(), Fail> {
    let Opened { gate, mut pass } = opened(&rt)?;
    assert!(rt; !is_there(&rt, &gate, &mut pass));
    assert_eq!(rt; reloads(&rt, rt.alloc(), &gate, &mut pass, ONE, &[0]), 1);
    assert!(rt; !is_there(&rt, &gate, &mut pass));
    assert_eq!(rt; reloads(&rt, rt.alloc(), &gate, &mut pass, ONE, &[]), 0);
    assert!(rt; is_there(&rt, &gate, &mut pass));
    Ok(())
}

#[test]
fn a_keeper_ends_with_the_daemon(rt: HostRuntime) -> Result<(), Fail> {
    let Opened { gate, mut pass } = opened(&rt)?;
    gate.enter(&rt, &mut pass, StopCall);
    let files = MemoryFiles::new(&HELD, &[], &[]);
    let pause = MemoryPause::new(&[]);
    let mut keeper = Keeper::new(rt.alloc(), &gate, ONE, SLOTS, files, pause, pass);
    keeper.run(&rt);
    let KeeperParts { files, pass: _ } = keeper.apart();
    assert_eq!(rt; files.faults(), 0);
    Ok(())
}

#[test]
fn a_keeper_that_is_called_off_ends_the_daemon(rt: HostRuntime) -> Result<(), Fail> {
    let Opened { gate, pass } = opened(&rt)?;
    let files = MemoryFiles::new(&HELD, &[], &[]);
    let pause = MemoryPause::new(&[]);
    let mut keeper = Keeper::new(rt.alloc(), &gate, ONE, SLOTS, files, pause, pass);
    keeper.call_off(&rt);
    let KeeperParts { files: _, mut pass } = keeper.apart();
    let told = gate.enter(&rt, &mut pass, ControlCall);
    assert!(rt; matches!(told, Control::Stop));
    Ok(())
}
