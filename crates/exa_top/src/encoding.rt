//! A helper's lines, answered over the configuration of a file or over that of a session's ends.
ghost use Rattle.std.specs.Prelude.{◌≡◌};
ghost use Rattle.outside.specs.Lent.{LendsNone};
ghost use Rattle.outside.specs.Seen.{source_seen, sink_seen};
ghost use Rattle.outside.specs.Told.{CountsOne};
ghost use Rattle.exa_top.specs.Encoded.{EncodesFile, EncodesHeard, plain_of};
ghost use Rattle.exa_top.specs.Top.{EndsAtOnce};
ghost use Rattle.script_play.specs.Encoding.{Encodes};

use crate::plain::plain_config;
use crate::top::TEXT_SLOTS;
use crate::words::Ends;
use config_model::{Config, ConfigFault, ConfigKind};
use outside::{Files, Sink, Source};
use script_play::{Status, configured, encode};
use std::alloc::Global;

// The fault of a configuration without a process, where lines are to come from one.
const NO_PROCESS: ConfigFault = ConfigFault {
    line: 0,
    column: 0,
    kind: ConfigKind::NoProcess,
};

/// Reads the file at a path as a configuration, opens a book by it, and encodes the lines of the input over that.
pub fn encode_over<F: Files, S: Source, K: Sink>(
    alloc: Global,
    path: &str,
    files: &mut F,
    input: &mut S,
    output: &mut K,
) -> Status
    ensures encodes { EncodesFile (F.content files.old) path.now
        (source_seen S.given S.left S.ended S.faults input.old)
        (source_seen S.given S.left S.ended S.faults input.new)
        (sink_seen K.taken K.faults output.old) (sink_seen K.taken K.faults output.new)
        (F.faults files.old) (F.faults files.new) result }
    ensures at_once { EndsAtOnce result
        → (input.new ≡ input.old) × (output.new ≡ output.old) }
    ensures unread { result ≡ Status.ConfigRead
        → (input.new ≡ input.old) × (output.new ≡ output.old) }
    ensures content { F.content files.new ≡ F.content files.old }
    ensures back { LendsNone (F.lent files.old) (F.lent files.new) }
    ensures config { result ≡ Status.ConfigRead
        → CountsOne (F.faults files.old) (F.faults files.new) }
    ensures config_same { ¬ (result ≡ Status.ConfigRead)
        → F.faults files.new ≡ F.faults files.old }
{
    match configured(alloc, files, path, TEXT_SLOTS) {
        Ok(config) => encode_heard(alloc, config, input, output),
        Err(status) => status,
    }
}

// Encodes the lines of the input over a configuration, unless this has no process that says them.
fn encode_heard<S: Source, K: Sink>(
    alloc: Global,
    config: Config,
    input: &mut S,
    output: &mut K,
) -> Status
    ensures encodes { EncodesHeard config
        (source_seen S.given S.left S.ended S.faults input.old)
        (source_seen S.given S.left S.ended S.faults input.new)
        (sink_seen K.taken K.faults output.old) (sink_seen K.taken K.faults output.new) result }
    ensures at_once { EndsAtOnce result
        → (input.new ≡ input.old) × (output.new ≡ output.old) }
{
    if config.processes().is_empty() {
        return Status::ConfigRefused(NO_PROCESS);
    }
    encode(alloc, config, input, output)
}

/// Opens a book by the configuration of a session with these ends, and encodes the lines of the input over that.
pub fn encode_plain<S: Source, K: Sink>(
    alloc: Global,
    ends: Ends,
    input: &mut S,
    output: &mut K,
) -> Status
    ensures { Encodes (plain_of ends) (source_seen S.given S.left S.ended S.faults input.old)
        (source_seen S.given S.left S.ended S.faults input.new)
        (sink_seen K.taken K.faults output.old) (sink_seen K.taken K.faults output.new) result }
{
    match plain_config(alloc, ends.local_as, ends.peer_as, ends.local) {
        Ok(config) => encode(alloc, config, input, output),
        Err(_) => Status::NoMemory,
    }
}
