//! The configuration of a file that a command names.
ghost use Rattle.std.specs.Prelude.{◌≡◌, IfOk, IfErr, IsErrOf};
ghost use Rattle.outside.specs.Lent.{LendsNone};
ghost use Rattle.outside.specs.Told.{CountsOne};
ghost use Rattle.text_history.specs.Configured.{IsConfigAt};
ghost use Rattle.script_play.specs.Status.{IsUnread, status_unread};

use crate::status::Status;
use config_model::{Config, ConfigFault, ConfigKind, Slots};
use config_reader::{ConfigError, read_config};
use outside::{Files, Unread, read_file};
use std::alloc::Global;

// How many bytes a configuration has at most.
const MAX_CONFIG: usize = 1_048_576;

/// The configuration of the file at a path, for so many slots.
///
/// The file is read whole before anything in it is looked at, and no further than one byte past the limit. What was
/// opened is given back. Its first fault is `ConfigRefused`. `ConfigRead` says that the file wasn't opened or that a
/// read failed, and counts one fault; nothing else does.
pub fn configured<F: Files>(
    alloc: Global,
    files: &mut F,
    path: &str,
    slots: Slots,
) -> Result<Config, Status>
    ensures config { IfOk result
        (λ config. IsConfigAt (F.content files.old) path.now slots config) }
    ensures unread { IfErr result (λ ends. IsUnread (F.content files.old) path.now slots ends) }
    ensures content { F.content files.new ≡ F.content files.old }
    ensures back { LendsNone (F.lent files.old) (F.lent files.new) }
    ensures count { IsErrOf result Status.ConfigRead
        → CountsOne (F.faults files.old) (F.faults files.new) }
    ensures same { ¬ IsErrOf result Status.ConfigRead
        → F.faults files.new ≡ F.faults files.old }
{
    let bytes = match read_file(alloc, files, path, MAX_CONFIG) {
        Ok(bytes) => bytes,
        Err(unread) => return Err(status_unread(unread)),
    };
    match read_config(alloc, &bytes, slots) {
        Ok(config) => Ok(config),
        Err(ConfigError::Refused(fault)) => Err(Status::ConfigRefused(fault)),
        Err(ConfigError::NoMemory) => Err(Status::NoMemory),
    }
}

// How a command ends whose file wasn't read whole.
fn status_unread(unread: Unread) -> Status
    ensures { result ≡ status_unread unread }
{
    match unread {
        Unread::Memory => Status::NoMemory,
        Unread::Fault => Status::ConfigRead,
        Unread::Long => Status::ConfigRefused(ConfigFault {
            line: 0,
            column: 0,
            kind: ConfigKind::Long,
        }),
    }
}
