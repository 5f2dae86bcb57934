//! One configuration with two processes and two neighbours, and reloads of small ones.
ghost use Rattle.std.specs.Prelude.{◌≡◌, IfOk, map};
ghost use Rattle.std.specs.List.{AllByRecursion, IsDistinct};
ghost use Rattle.route_values.specs.declared.addr.Family.TheVariants.{Ipv4};
ghost use Rattle.route_values.specs.Addr.{family_of};
ghost use Rattle.route_values.specs.Key.{same_key};
ghost use Rattle.config_model.specs.Drafts.{IsNeighbor, IsRoute};

use super::*;
use arrayvec::ArrayVec;
use route_values::{Addr, Attrs, Family, Hop, Items, Key, NoMemory, Pick, Prefix, Selector};
use std::alloc::Global;
use std::test::Fail;

// 192.0.2.2 to 192.0.2.5, and the own address 192.0.2.9.
const FIRST: u32 = 0xC000_0202;

const SECOND: u32 = 0xC000_0203;

const THIRD: u32 = 0xC000_0204;

const FOURTH: u32 = 0xC000_0205;

const LOCAL: u32 = 0xC000_0209;

// 198.51.100.0/24.
const NET: u32 = 0xC633_6400;

const ANNOUNCER: &[u8] = b"announcer";

const CHECKER: &[u8] = b"checker";

const OTHER: &[u8] = b"check";

// A value that a call has found memory for.
fn found<T: Drop>(answer: Result<T, NoMemory>) -> Result<T, Fail> {
    match answer {
        Ok(value) => Ok(value),
        Err(NoMemory) => Err(Fail::from("no memory")),
    }
}

fn settings(peer: u32, peer_as: u32) -> Settings
    ensures { (family_of result.peer ≡ Ipv4) × (family_of result.local ≡ Ipv4) }
{
    Settings {
        peer: Addr::V4(peer),
        local: Addr::V4(LOCAL),
        port: 179,
        local_as: 65001,
        peer_as,
        router_id: LOCAL,
        hold: 180,
        ipv4: true,
        ipv6: true,
        ipv4_send: false,
        ipv6_send: false,
        ipv4_receive: false,
        ipv6_receive: false,
        refresh: true,
        extended: false,
    }
}

fn bytes<const N: usize>(text: &[u8]) -> ArrayVec<u8, N> {
    let mut bytes = ArrayVec::new();
    let _ = bytes.try_extend_from_slice(text);
    bytes
}

fn process(name: &[u8]) -> Process {
    Process {
        name: bytes(name),
        run: bytes(b"/bin/cat"),
        json: false,
        respawn: true,
    }
}

fn names(alloc: Global, texts: &[&[u8]]) -> Result<Names, NoMemory> {
    let mut names = Items::new(alloc);
    'texts: for text in texts {
        names.push(bytes(text))?;
    }
    Ok(names)
}

fn net() -> Result<Prefix, Fail>
    ensures { IfOk result (λ prefix. family_of prefix.addr ≡ Ipv4) }
{
    match Prefix::new(Addr::V4(NET), 24) {
        Some(prefix) => Ok(prefix),
        None => Err(Fail::from("no prefix")),
    }
}

// Static routes of one prefix with the identifiers below `count`.
fn statics(
    alloc: Global,
    settings: &Settings,
    prefix: Prefix,
    count: u32,
) -> Result<Statics, NoMemory>
    requires { family_of settings.now.local ≡ family_of prefix.addr }
    ensures keys { IfOk result (λ routes. IsDistinct same_key (map (λ route. route.key) routes)) }
    ensures each { IfOk result (λ routes. AllByRecursion (IsRoute settings.now) routes) }
{
    let mut routes = Items::new(alloc);
    'ids: for id in 0..count {
        let attrs = Attrs::new(alloc, Hop::Own);
        let key = Key { prefix, id };
        routes.push(StaticRoute { key, attrs })?;
    }
    Ok(routes)
}

// A neighbour that hears these processes and has so many static routes.
fn neighbor(
    alloc: Global,
    settings: Settings,
    hears: &[&[u8]],
    prefix: Prefix,
    count: u32,
) -> Result<Neighbor, NoMemory>
    requires net { family_of prefix.addr ≡ Ipv4 }
    requires ends { (family_of settings.peer ≡ Ipv4) × (family_of settings.local ≡ Ipv4) }
    ensures { IfOk result (λ section. IsNeighbor section) }
{
    let statics = statics(alloc, &settings, prefix, count)?;
    let processes = names(alloc, hears)?;
    Ok(Neighbor {
        settings,
        statics,
        processes,
    })
}

// The same, or that a test finds no memory.
fn section(
    alloc: Global,
    settings: Settings,
    hears: &[&[u8]],
    prefix: Prefix,
    count: u32,
) -> Result<Neighbor, Fail>
    requires net { family_of prefix.addr ≡ Ipv4 }
    requires ends { (family_of settings.peer ≡ Ipv4) × (family_of settings.local ≡ Ipv4) }
    ensures { IfOk result (λ section. IsNeighbor section) }
{
    match neighbor(alloc, settings, hears, prefix, count) {
        Ok(section) => Ok(section),
        Err(NoMemory) => Err(Fail::from("no memory")),
    }
}

// Puts a process into a draft that has room for it.
fn run(draft: &mut Draft, process: Process) -> Result<(), Fail> {
    let is_new = place_of_process(draft.processes(), process.name.as_slice()).is_none();
    if !is_new || draft.processes().len() >= MAX_HELPERS {
        return Err(Fail::from("no room for the process"));
    }
    found(draft.add_process(process))
}

// Puts a neighbour into a draft that has room for it.
fn add(draft: &mut Draft, neighbor: Neighbor) -> Result<(), Fail>
    requires { IsNeighbor neighbor }
{
    let is_new = place_of_neighbor(draft.neighbors(), neighbor.settings.peer).is_none();
    if !is_new || draft.neighbors().len() >= MAX_PEERS {
        return Err(Fail::from("no room for the neighbour"));
    }
    if neighbor.statics.len() > MAX_ROUTES - draft.routes() {
        return Err(Fail::from("no room for its routes"));
    }
    found(draft.add_neighbor(neighbor))
}

fn finished(draft: Draft) -> Result<Config, Fail> {
    match check(draft) {
        Ok(config) => Ok(config),
        Err(_) => Err(Fail::from("refused")),
    }
}

// The two processes, of which the second neighbour hears the first alone.
fn config(alloc: Global) -> Result<Config, Fail> {
    let prefix = net()?;
    let mut draft = Draft::new(alloc);
    run(&mut draft, process(ANNOUNCER))?;
    run(&mut draft, process(CHECKER))?;
    let both = [ANNOUNCER, CHECKER];
    let first = section(alloc, settings(FIRST, 65002), &both, prefix, 1)?;
    add(&mut draft, first)?;
    let second = section(alloc, settings(SECOND, 65001), &[ANNOUNCER], prefix, 0)?;
    add(&mut draft, second)?;
    finished(draft)
}

// Neighbours with these addresses and hold times.
fn timed(alloc: Global, sections: &[(u32, u16)]) -> Result<Config, Fail> {
    let prefix = net()?;
    let mut draft = Draft::new(alloc);
    'sections: for (peer, hold) in sections {
        let timed = Settings {
            hold: *hold,
            ..settings(*peer, 65002)
        };
        add(&mut draft, section(alloc, timed, &[], prefix, 0)?)?;
    }
    finished(draft)
}

// A pick of an address, with a qualifier for the neighbour's AS.
fn pick(peer: u32, peer_as: Option<u32>) -> Pick {
    Pick {
        peer: Addr::V4(peer),
        local: Some(Addr::V4(LOCAL)),
        local_as: Some(65001),
        peer_as,
        router_id: None,
    }
}

#[test]
fn sections_are_found_by_name_and_address(rt: HostRuntime) -> Result<(), Fail> {
    let config = config(rt.alloc())?;
    let names = [(ANNOUNCER, Some(0)), (CHECKER, Some(1)), (OTHER, None)];
    'names: for (name, wanted) in names {
        assert_eq!(rt;
            place_of_process(config.processes(), name),
            wanted,
            "{name:?}"
        );
    }
    let peers = [(FIRST, Some(0)), (SECOND, Some(1)), (THIRD, None)];
    'peers: for (peer, wanted) in peers {
        assert_eq!(rt;
            place_of_neighbor(config.neighbors(), Addr::V4(peer)),
            wanted,
            "{peer}"
        );
    }
    Ok(())
}

#[test]
fn a_copied_process_is_the_same(rt: HostRuntime) {
    let section = process(ANNOUNCER);
    assert!(rt; section.copy().is_same(&section));
    assert!(rt; !section.is_same(&process(CHECKER)));
}

#[test]
fn a_command_is_for_the_picked_neighbours_that_hear_its_process(
    rt: HostRuntime,
) -> Result<(), Fail> {
    let config = config(rt.alloc())?;
    let second = Some(pick(SECOND, None));
    let its_as = Some(pick(FIRST, Some(65002)));
    let other_as = Some(pick(FIRST, Some(65001)));
    let (ipv4, ipv6) = (Some(Family::Ipv4), Some(Family::Ipv6));
    let table = [
        ("no pick", ANNOUNCER, None, None, 0, true),
        ("no pick, the second", ANNOUNCER, None, None, 1, true),
        ("past the last one", ANNOUNCER, None, None, 2, false),
        ("another process", CHECKER, None, None, 0, true),
        ("a process not heard", CHECKER, None, None, 1, false),
        ("a process unknown", OTHER, None, None, 0, false),
        ("its address", ANNOUNCER, second, None, 1, true),
        ("another address", ANNOUNCER, second, None, 0, false),
        ("its AS", ANNOUNCER, its_as, None, 0, true),
        ("another AS", ANNOUNCER, other_as, None, 0, false),
        ("self in its family", ANNOUNCER, None, ipv4, 0, true),
        ("self in another", ANNOUNCER, None, ipv6, 0, false),
    ];
    'cases: for (case, process, written, family, n, wanted) in table {
        let mut selector: Selector = Items::new(rt.alloc());
        if let Some(pick) = written {
            found(selector.push(pick))?;
        }
        assert_eq!(rt;
            selected(&config, process, &selector, family, n),
            wanted,
            "{case}"
        );
    }
    Ok(())
}

#[test]
fn a_process_without_a_section_is_refused(rt: HostRuntime) -> Result<(), Fail> {
    let mut draft = Draft::new(rt.alloc());
    run(&mut draft, process(ANNOUNCER))?;
    let both = [ANNOUNCER, CHECKER];
    let section = section(rt.alloc(), settings(FIRST, 65002), &both, net()?, 0)?;
    add(&mut draft, section)?;
    assert_eq!(rt; draft.unknown().map(|name| name.as_slice()), Some(CHECKER));
    let fault = ConfigFault {
        line: 0,
        column: 0,
        kind: ConfigKind::Process,
    };
    assert_eq!(rt; check(draft).err(), Some(fault));
    Ok(())
}

#[test]
fn a_reload_keeps_equal_settings_and_resets_others(rt: HostRuntime) -> Result<(), Fail> {
    let old = timed(rt.alloc(), &[(FIRST, 180), (SECOND, 180), (THIRD, 180)])?;
    let new = timed(rt.alloc(), &[(FOURTH, 180), (SECOND, 90), (FIRST, 180)])?;
    let plan = found(reload_plan(rt.alloc(), &old, &new))?;
    let table = [
        ("keep", plan.keep.as_slice(), FIRST),
        ("reset", plan.reset.as_slice(), SECOND),
        ("add", plan.add.as_slice(), FOURTH),
        ("remove", plan.remove.as_slice(), THIRD),
    ];
    'lists: for (list, peers, wanted) in table {
        assert_eq!(rt; peers, [Addr::V4(wanted)].as_slice(), "{list}");
    }
    Ok(())
}

#[test]
fn a_hundred_thousand_static_routes_find_memory(rt: HostRuntime) -> Result<(), Fail> {
    let settings = settings(FIRST, 65002);
    let section = section(rt.alloc(), settings, &[], net()?, 100_000)?;
    let copied = found(section.copy(rt.alloc()))?;
    assert_eq!(rt; copied.statics.len(), 100_000);
    let mut draft = Draft::new(rt.alloc());
    add(&mut draft, section)?;
    assert_eq!(rt; draft.routes(), 100_000);
    Ok(())
}
