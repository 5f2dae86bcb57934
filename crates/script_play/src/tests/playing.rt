//! Scripts that are played to their end. The messages' bytes are those of RFC 4271, section 4.
use super::*;

// A helper is started, and the neighbour's session comes up.
const START: &str = "spawn 0 0\npeer 0\nup 0 ipv4\n";

const STARTED: &str = "go 1\npeer\nup\n";

// What a story shows, its file, its script behind `START`, and its output behind `STARTED`.
type Story = (&'static str, &'static str, &'static str, &'static str);

const ROUTES: [Story; 6] = [
    (
        "a route comes, and goes",
        ONE,
        "line 0 1 announce route 10.0.0.0/24 next-hop 192.0.2.1\n\
         drain 0\n\
         line 0 1 withdraw route 10.0.0.0/24\n\
         drain 0\n\
         take 0 1\n",
        "done\n\
         update 0 more M002F02000000144001010040020602010000FDE9400304C0000201180A0000\n\
         update 0 last M00170200000000\n\
         nothing\n\
         done\n\
         update 0 last M001B020004180A00000000\n\
         nothing\n\
         reply done\n\
         reply done\n",
    ),
    (
        "a line that picks another neighbour",
        ONE,
        "line 0 1 neighbor 203.0.113.9 announce route 10.0.0.0/24 next-hop 192.0.2.1\n",
        "error no-match\n",
    ),
    (
        "a helper that no neighbour hears",
        UNHEARD,
        "line 0 1 announce route 10.0.0.0/24 next-hop 192.0.2.1\n",
        "error no-match\n",
    ),
    (
        "a route is changed between two messages of a batch",
        ONE,
        "line 0 1 announce route 10.0.0.0/24 next-hop 192.0.2.1 med 1\n\
         line 0 1 announce route 10.0.1.0/24 next-hop 192.0.2.1 med 2\n\
         cut 0\n\
         line 0 1 announce route 10.0.1.0/24 next-hop 192.0.2.1 med 3\n\
         drain 0\n",
        "done\n\
         done\n\
         update 0 more M0036020000001B40010100400206020100\
         00FDE9400304C000020180040400000001180A0000\n\
         done\n\
         update 0 more M0036020000001B40010100400206020100\
         00FDE9400304C000020180040400000002180A0001\n\
         update 0 last M00170200000000\n\
         update 0 last M0036020000001B40010100400206020100\
         00FDE9400304C000020180040400000003180A0001\n\
         nothing\n",
    ),
    (
        "a session that goes down within a batch, and comes up with fewer families",
        ONE,
        "down 0\npeer 0\nup 0 ipv4 ipv6\n\
         line 0 1 announce route 10.0.0.0/24 next-hop 192.0.2.1 med 1\n\
         line 0 1 announce route 10.0.1.0/24 next-hop 192.0.2.1 med 2\n\
         line 0 1 announce route 2001:db8::/32 next-hop 2001:db8::1\n\
         cut 0\ndown 0\npeer 0\nup 0 ipv4\ndrain 0\n",
        "ok\npeer\nup\ndone\ndone\ndone\n\
         update 0 more M0036020000001B40010100400206020100\
         00FDE9400304C000020180040400000001180A0000\n\
         ok\npeer\nup\n\
         update 0 more M0036020000001B40010100400206020100\
         00FDE9400304C000020180040400000001180A0000\n\
         update 0 more M0036020000001B40010100400206020100\
         00FDE9400304C000020180040400000002180A0001\n\
         update 0 last M00170200000000\n\
         nothing\n",
    ),
    (
        "remarks and blank lines are passed over, and the last line needs no line feed",
        ONE,
        "\n# a remark\n \t\ncut 0",
        "update 0 last M00170200000000\n",
    ),
];

const HELPERS: [Story; 3] = [
    (
        "a helper is gone, and another comes",
        ONE,
        "line 0 1 announce route 10.0.0.0/24 next-hop 192.0.2.1\n\
         gone 0 1\n\
         line 0 1 announce route 10.0.0.0/24 next-hop 192.0.2.1\n\
         spawn 0 5\n\
         line 0 2 # x\n\
         take 0 1\n\
         cut 0\n",
        "done\nok\nended\ngo 2\ndone\nended\n\
         update 0 more M002F02000000144001010040020602010000FDE9400304C0000201180A0000\n",
    ),
    (
        "a deaf helper takes no replies",
        ONE,
        "line 0 1 # x\ndeaf 0 1\ntake 0 1\nline 0 1 # x\ngone 0 1\n",
        "done\nok\nended\nended\nok\n",
    ),
    (
        "an end that a helper asks for",
        ONE,
        "line 0 1 neighbor 192.0.2.2 teardown 4\ncut 0\ncut 0\ndown 0\ncut 0\n\
         line 0 1 shutdown\nline 0 1 # x\ntake 0 1\ntake 0 1\nspawn 0 9\ncontrol\npeer 0\n",
        "done\nreset 6 4\nreset 6 4\nok\ndown\n\
         done\nended\nreply done\nreply done\nended\nstopping\nstop\nstopping\n",
    ),
];

const RELOADS: [Story; 3] = [
    (
        "a session's settings are old",
        ONE,
        "down 0\npeer 0\nreload h.conf\nup 0 ipv4\npeer 0\nup 0 ipv4\n",
        "ok\npeer\nreloaded\nstale\npeer\nup\n",
    ),
    (
        "a static route comes behind a helper's",
        ONE,
        "line 0 1 announce route 10.0.0.0/24 next-hop 192.0.2.1\n\
         cut 0\ncut 0\ncut 0\n\
         reload b.conf\n\
         drain 0\n\
         line 0 1 withdraw route 10.0.0.0/24\n\
         reload b.conf\n\
         drain 0\n",
        "done\n\
         update 0 more M002F02000000144001010040020602010000FDE9400304C0000201180A0000\n\
         update 0 last M00170200000000\n\
         nothing\n\
         reloaded\n\
         nothing\n\
         done\n\
         reloaded\n\
         update 0 last M002F02000000144001010040020602010000FDE9400304C0000207180A0000\n\
         nothing\n",
    ),
    (
        "a file that is refused changes nothing",
        ONE,
        "drain 0\nline 0 1 reload\ncontrol\nreload unfinished.conf\ncontrol\ndrain 0\n",
        "update 0 last M00170200000000\n\
         nothing\n\
         done\nreload-due\nrefused 1:21 token\nnothing\nnothing\n",
    ),
];

// Plays a story in one piece, and in pieces of a byte.
fn tell(alloc: Global, story: &Story) -> Result<(), Fail> {
    let (_, file, script, wanted) = *story;
    let script = format!(in alloc; "{START}{script}")?;
    let wanted = format!(in alloc; "{STARTED}{wanted}")?;
    let wanted = written(alloc, wanted.as_str())?;
    expect(alloc, file, script.as_str(), wanted.as_str(), ALL_WELL)?;
    expect(alloc, file, script.as_str(), wanted.as_str(), BYTEWISE)
}

// Plays a whole script, which is to be answered so.
fn expect(
    alloc: Global,
    file: &str,
    script: &str,
    wanted: &str,
    calls: Calls<'_>,
) -> Result<(), Fail> {
    let done = run(alloc, file, script, calls)?;
    let told = done.output.as_str();
    if done.status == Status::Ok && told == wanted && done.lent == Some(0) {
        return Ok(());
    }
    Err(Fail::new(format!(in alloc; "{told} in place of {wanted}")?))
}

#[test]
fn what_lines_say_is_in_the_messages(rt: HostRuntime) -> Result<(), Fail> {
    'stories: for story in &ROUTES {
        tell(rt.alloc(), story)?;
    }
    Ok(())
}

#[test]
fn helpers_come_and_go(rt: HostRuntime) -> Result<(), Fail> {
    'stories: for story in &HELPERS {
        tell(rt.alloc(), story)?;
    }
    Ok(())
}

#[test]
fn a_reload_names_a_file(rt: HostRuntime) -> Result<(), Fail> {
    'stories: for story in &RELOADS {
        tell(rt.alloc(), story)?;
    }
    Ok(())
}

// Both neighbours are served, and then the file has one alone, without a static route.
const LESS: &str = "spawn 0 0\npeer 0\nup 0 ipv4 ipv4-path\npeer 1\nup 1 ipv4\n\
     line 0 1 neighbor 192.0.2.2 announce route 10.0.1.0/24 next-hop 192.0.2.1 path-information 5\n\
     drain 0\ndrain 1\nreload one.conf\ndrain 0\ndrain 1\n";

const LESS_TOLD: &str = "reloaded\n\
     update 0 last M001F02000800000000180A00010000\n\
     nothing\n\
     reset 6 3\n";

#[test]
fn a_reload_takes_away_what_the_file_lacks(rt: HostRuntime) -> Result<(), Fail> {
    let done = run(rt.alloc(), TWO, LESS, ALL_WELL)?;
    let wanted = written(rt.alloc(), LESS_TOLD)?;
    assert_eq!(rt; done.status, Status::Ok);
    assert!(rt; done.output.as_str().ends_with(wanted.as_str()));
    Ok(())
}

// Some lines behind each other.
fn repeated(alloc: Global, line: &str, times: u32) -> Result<String, Fail> {
    let mut text = String::new(alloc);
    for _ in 0..times {
        text.push_str(line)?;
    }
    Ok(text)
}

#[test]
fn a_helper_waits_where_1024_replies_wait(rt: HostRuntime) -> Result<(), Fail> {
    let alloc = rt.alloc();
    let lines = repeated(alloc, "line 0 1 # x\n", 1_025)?;
    let script = format!(in alloc; "{START}{}take 0 1\nline 0 1 # x\n", lines.as_str())?;
    let answers = repeated(alloc, "done\n", 1_024)?;
    let replies = repeated(alloc, "reply done\n", 64)?;
    let wanted = format!(in alloc;
        "{STARTED}{}busy\n{}done\n",
        answers.as_str(),
        replies.as_str()
    )?;
    expect(alloc, ONE, script.as_str(), wanted.as_str(), ALL_WELL)
}

// A line that announces 1,014 prefixes.
fn crowded(alloc: Global) -> Result<String, Fail> {
    let mut line = String::new(alloc);
    line.push_str("line 0 1 announce attributes next-hop 192.0.2.1 nlri")?;
    for number in 0..1_014_u32 {
        let prefix = format!(in alloc; " 10.{}.{}.0/24", number / 256, number % 256)?;
        line.push_str(prefix.as_str())?;
    }
    line.push('\n')?;
    Ok(line)
}

#[test]
fn an_extended_message_holds_more_than_4096_bytes(rt: HostRuntime) -> Result<(), Fail> {
    let alloc = rt.alloc();
    let line = crowded(alloc)?;
    let script = format!(in alloc;
        "spawn 0 0\npeer 0\nup 0 ipv4 extended\n{}drain 0\n",
        line.as_str()
    )?;
    let done = run(alloc, ONE, script.as_str(), ALL_WELL)?;
    let begins = written(alloc, "go 1\npeer\nup\ndone\nupdate 0 more M100302")?;
    let ends = written(alloc, "180A03F5\nupdate 0 last M00170200000000\nnothing\n")?;
    assert_eq!(rt; done.status, Status::Ok);
    assert!(rt; done.output.as_str().starts_with(begins.as_str()));
    assert!(rt; done.output.as_str().ends_with(ends.as_str()));
    Ok(())
}
