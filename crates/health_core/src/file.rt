//! A file of a health check.
ghost use Rattle.std.specs.Prelude.{◌≡◌, IfOk};
ghost use Rattle.config_reader.specs.declared.fault.ConfigError.TheVariants.{Refused};
ghost use Rattle.health_core.specs.Files.{ReadsHealth, without_place};
ghost use Rattle.health_core.specs.Printing.{IsSound};
ghost use Rattle.health_core.specs.Statements.{health_of};

use crate::health::Health;
use crate::statements::statements_read;
use crate::written::Written;
use config_model::{ConfigFault, ConfigKind};
use config_reader::ConfigError;
use route_values::Hop;
use std::alloc::Global;
use token_reader::{FileTokens, MAX_FILE};

// What holds where nothing is written.
const TALLY: u32 = 3;

const PAUSE: u64 = 5_000;

const TURNS: u64 = 1_099_511_627_776;

const UP_MED: u32 = 100;

/// The health check that a file's bytes describe, or their first fault. Only want of memory may come in place of
/// either.
pub fn read_health(alloc: Global, bytes: &[u8]) -> Result<Health, ConfigError>
    ensures read { ReadsHealth bytes.now result }
    ensures sound { IfOk result (λ health. IsSound health) }
{
    if bytes.len() > MAX_FILE {
        return Err(refused(ConfigKind::Long));
    }
    let mut words = FileTokens::new(bytes);
    let written = statements_read(alloc, &mut words)?;
    match health_of(written) {
        Some(health) => Ok(health),
        None => Err(refused(ConfigKind::Missing)),
    }
}

// A fault without a place.
fn refused(kind: ConfigKind) -> ConfigError
    ensures { result ≡ Refused (without_place kind) }
{
    ConfigError::Refused(ConfigFault {
        line: 0,
        column: 0,
        kind,
    })
}

// What statements say, where what is needed is written.
fn health_of(written: Written) -> Option<Health>
    ensures { result ≡ health_of written }
{
    if written.prefixes.as_slice().is_empty() {
        return None;
    }
    let Written {
        rise,
        fall,
        every,
        turns,
        run,
        prefixes,
        hop,
        up_med,
        down,
    } = written;
    let Some(run) = run else {
        return None;
    };
    Some(Health {
        rise: rise.unwrap_or(TALLY),
        fall: fall.unwrap_or(TALLY),
        every: every.unwrap_or(PAUSE),
        turns: turns.unwrap_or(TURNS),
        run,
        prefixes,
        hop: hop.unwrap_or(Hop::Own),
        up_med: up_med.unwrap_or(UP_MED),
        down: down.unwrap_or(None),
    })
}
