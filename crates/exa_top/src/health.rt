//! The health check: a helper that announces while a check succeeds.
ghost use Rattle.std.specs.Prelude.{◌≡◌, ◌⊎◌, ℕ, List, map, IfOk, IfErr, IfSome, IfNone, IsErrOf};
ghost use Rattle.config_model.specs.declared.fault.ConfigFault.{ConfigFault as Fault};
ghost use Rattle.health_core.specs.declared.health.Health.{Health as Said};
ghost use Rattle.outside.specs.Lent.{LendsNone};
ghost use Rattle.outside.specs.Seen.{sink_seen};
ghost use Rattle.outside.specs.Told.{CountsOne, Rose};
ghost use Rattle.exa_top.specs.Health.{HealthEnds, IsHealthAt, IsHealthUnread, IsHealthcheck};
ghost use Rattle.exa_top.specs.Health.{IsToldHealth, IsToldHealthFault, WatchEnds};

use crate::files::{bytes_at, status_wrong};
use crate::words::is;
use health_core::{Health, Unwatched, health_files_say_one, read_health, watch};
use outside::{Files, Pause, Probe, Sink};
use script_play::Status;
use std::alloc::Global;

/// Runs the health check that the words spell: `healthcheck FILE`.
///
/// It reads the file at this path, and then has its program checked as often as it says, with its pause before each
/// check but the first. It writes the line `disable-ack`, then the command that announces the prefixes while the
/// service is down, where they are announced then, and a command at each change, each line as one piece at once. A
/// check or a pause may wait, so that nothing says when the call returns. What was opened is given back, whatever the
/// status.
///
/// - `usage`, `only_usage`: `Usage` is just the status of other words. Nothing is touched then.
/// - `ends`: what was checked and written, by the status; a refusal is the file's first fault.
/// - `refuses`, `complete`: where the file's content is told and no device fails, the file decides the status, but for
///   want of memory.
pub fn exabgp_health<F: Files, B: Probe, P: Pause, K: Sink>(
    alloc: Global,
    words: &[&str],
    files: &mut F,
    probe: &mut B,
    pause: P,
    output: &mut K,
) -> Status
    // Words that spell no health check.
    ensures usage { (result ≡ Status.Usage) → (path : List ℕ)
        → IsHealthcheck (map (λ w. w.now) words.now) path → ⊥ }
    ensures only_usage { ((path : List ℕ) → IsHealthcheck (map (λ w. w.now) words.now) path → ⊥)
        → (result ≡ Status.Usage) × (files.new ≡ files.old) × (probe.new ≡ probe.old)
        × (output.new ≡ output.old) }

    // What was checked and written.
    ensures ends { (path : List ℕ) → IsHealthcheck (map (λ w. w.now) words.now) path
        → HealthEnds (F.content files.old) path (B.checks probe.old) (B.checks probe.new)
        (sink_seen K.taken K.faults output.old) (sink_seen K.taken K.faults output.new) result }

    // What was opened is given back, and a file that wasn't read counts one fault.
    ensures content { F.content files.new ≡ F.content files.old }
    ensures back { LendsNone (F.lent files.old) (F.lent files.new) }
    ensures config { result ≡ Status.ConfigRead
        → CountsOne (F.faults files.old) (F.faults files.new) }
    ensures config_same { ¬ (result ≡ Status.ConfigRead)
        → F.faults files.new ≡ F.faults files.old }

    // The file decides, if memory suffices and nothing fails.
    ensures refuses { (path : List ℕ) (fault : Fault)
        → IsHealthcheck (map (λ w. w.now) words.now) path
        → IsToldHealthFault (F.content files.old) path fault
        → ¬ Rose (F.faults files.old) (F.faults files.new)
        → (result ≡ Status.ConfigRefused fault) ⊎ (result ≡ Status.NoMemory) }
    ensures complete { (path : List ℕ) (health : Said)
        → IsHealthcheck (map (λ w. w.now) words.now) path
        → IsToldHealth (F.content files.old) path health
        → ¬ Rose (F.faults files.old) (F.faults files.new)
        → ¬ Rose (K.faults output.old) (K.faults output.new)
        → (result ≡ Status.Ok) ⊎ (result ≡ Status.NoMemory) }
{
    // For the proof: by the law a file says one health check or has one first fault.
    health_files_say_one();
    match health_path(words) {
        Some(path) => checked(alloc, path, files, probe, pause, output),
        None => Status::Usage,
    }
}

// The path that the words name, or None where they spell no health check.
fn health_path<'a>(words: &[&'a str]) -> Option<&'a str>
    ensures found { IfSome result
        (λ path. IsHealthcheck (map (λ w. w.now) words.now) path.now) }
    ensures none { IfNone result
        ((path : List ℕ) → IsHealthcheck (map (λ w. w.now) words.now) path → ⊥) }
{
    let (name, operands) = words.split_first()?;
    let (path, others) = operands.split_first()?;
    if !others.is_empty() {
        return None;
    }
    if !is(name.as_bytes(), b"healthcheck") {
        return None;
    }
    Some(path)
}

// Runs the health check of a file.
fn checked<F: Files, B: Probe, P: Pause, K: Sink>(
    alloc: Global,
    path: &str,
    files: &mut F,
    probe: &mut B,
    pause: P,
    output: &mut K,
) -> Status
    ensures ends { HealthEnds (F.content files.old) path.now (B.checks probe.old)
        (B.checks probe.new) (sink_seen K.taken K.faults output.old)
        (sink_seen K.taken K.faults output.new) result }
    ensures content { F.content files.new ≡ F.content files.old }
    ensures back { LendsNone (F.lent files.old) (F.lent files.new) }
    ensures config { result ≡ Status.ConfigRead
        → CountsOne (F.faults files.old) (F.faults files.new) }
    ensures config_same { ¬ (result ≡ Status.ConfigRead)
        → F.faults files.new ≡ F.faults files.old }
{
    match health_at(alloc, files, path) {
        Ok(health) => watched(alloc, &health, probe, pause, output),
        Err(status) => status,
    }
}

// The health check that the file at a path says.
fn health_at<F: Files>(alloc: Global, files: &mut F, path: &str) -> Result<Health, Status>
    ensures health { IfOk result (λ health. IsHealthAt (F.content files.old) path.now health) }
    ensures unread { IfErr result (λ ends. IsHealthUnread (F.content files.old) path.now ends) }
    ensures content { F.content files.new ≡ F.content files.old }
    ensures back { LendsNone (F.lent files.old) (F.lent files.new) }
    ensures count { IsErrOf result Status.ConfigRead
        → CountsOne (F.faults files.old) (F.faults files.new) }
    ensures same { ¬ IsErrOf result Status.ConfigRead
        → F.faults files.new ≡ F.faults files.old }
{
    let bytes = bytes_at(alloc, files, path)?;
    match read_health(alloc, &bytes) {
        Ok(health) => Ok(health),
        Err(error) => Err(status_wrong(error)),
    }
}

// Watches, and says how that ended.
fn watched<B: Probe, P: Pause, K: Sink>(
    alloc: Global,
    health: &Health,
    probe: &mut B,
    pause: P,
    output: &mut K,
) -> Status
    ensures { WatchEnds health.now (B.checks probe.old) (B.checks probe.new)
        (sink_seen K.taken K.faults output.old) (sink_seen K.taken K.faults output.new) result }
{
    match watch(alloc, health, probe, pause, output) {
        Ok(()) => Status::Ok,
        Err(Unwatched::Write) => Status::WriteFault,
        Err(Unwatched::Memory) => Status::NoMemory,
    }
}
