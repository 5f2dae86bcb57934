//! A script, played over the configuration of a file.
ghost use Rattle.std.specs.Prelude.{◌≡◌};
ghost use Rattle.outside.specs.Lent.{LendsNone};
ghost use Rattle.outside.specs.Seen.{source_seen, sink_seen};
ghost use Rattle.exa_top.specs.Played.{PlaysFile};
ghost use Rattle.exa_top.specs.Top.{EndsAtOnce};

use crate::top::TEXT_SLOTS;
use outside::{Files, Sink, Source};
use script_play::{Status, configured, play};
use std::alloc::Global;

/// Reads the file at a path as a configuration, opens a book by it, and plays the script of the input over that.
pub fn play_over<F: Files, S: Source, K: Sink>(
    alloc: Global,
    path: &str,
    files: &mut F,
    input: &mut S,
    output: &mut K,
) -> Status
    ensures plays { PlaysFile (F.content files.old) path.now
        (source_seen S.given S.left S.ended S.faults input.old)
        (source_seen S.given S.left S.ended S.faults input.new)
        (sink_seen K.taken K.faults output.old) (sink_seen K.taken K.faults output.new)
        (F.faults files.old) (F.faults files.new) result }
    ensures at_once { EndsAtOnce result
        → (input.new ≡ input.old) × (output.new ≡ output.old) }
    ensures content { F.content files.new ≡ F.content files.old }
    ensures back { LendsNone (F.lent files.old) (F.lent files.new) }
{
    match configured(alloc, files, path, TEXT_SLOTS) {
        Ok(config) => play(alloc, config, files, input, output),
        Err(status) => status,
    }
}
