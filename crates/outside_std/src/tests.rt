//! What is trusted: the system below the adapters. Only loopback addresses are used.
mod checks;
mod children;
mod links;
mod pauses;
mod streams;
mod writes;

use crate::{PipeSink, PipeSource, ProcessLeash, ProcessSpawner};
use outside::{Pipes, Read, Source, Spawned, Spawner};
use std::test::Fail;
use std::time::{Clock, Instant};

// A time that no test waits for, in milliseconds.
const LONG: u64 = 3_600_000;

// A time within which what is to come at once has come on a busy machine too, in milliseconds.
const SOON: u64 = 10_000;

// A program that neither reads nor writes, and ends by itself later than that.
const SLEEP: &[u8] = b"sleep\x0020";

fn millis_since<R: Clock>(rt: &R, start: &Instant) -> Result<u64, Fail> {
    Ok(u64::try_from(start.elapsed(rt)?.as_millis())?)
}

type ChildPipes<'a> = Pipes<PipeSource<'a>, PipeSink<'a>, ProcessLeash<'a>>;

fn started<'a>(
    spawner: &mut ProcessSpawner<'a, HostRuntime>,
    run: &[u8],
) -> Result<ChildPipes<'a>, Fail> {
    match spawner.spawn(run) {
        Spawned::Open(pipes) => Ok(pipes),
        Spawned::Failed => Err(Fail::from("no child")),
    }
}

// Whether these bytes come next, each read alone.
fn gives<S: Source>(source: &mut S, wanted: &[u8]) -> bool {
    for byte in wanted {
        let mut buffer = [0];
        if source.read(&mut buffer) != Read::Got(1) || buffer[0] != *byte {
            return false;
        }
    }
    true
}
