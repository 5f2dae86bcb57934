//! Files that a command names.
ghost use Rattle.std.specs.Prelude.{◌≡◌, IfErr, IfOk, IsErrOf};
ghost use Rattle.outside.specs.Lent.{LendsNone};
ghost use Rattle.outside.specs.Opening.{IsContent};
ghost use Rattle.outside.specs.Told.{CountsOne};
ghost use Rattle.exa_top.specs.Files.{IsLost, status_unread, status_wrong};

use config_model::{ConfigFault, ConfigKind};
use config_reader::ConfigError;
use outside::{Files, Unread, read_file};
use script_play::Status;
use std::alloc::Global;
use token_reader::MAX_FILE;

/// The bytes of the file at a path, or how a command ends that doesn't get them.
///
/// The file is read whole, and no further than one byte past what a file may have; a longer one is refused for that.
/// What was opened is given back. `ConfigRead` says that the file wasn't opened or that a read failed, and counts one
/// fault; nothing else does.
pub fn bytes_at<F: Files>(alloc: Global, files: &mut F, path: &str) -> Result<Vec<u8>, Status>
    ensures bytes { IfOk result (λ bytes. IsContent (F.content files.old) path.now bytes.items) }
    ensures lost { IfErr result (λ ends. IsLost (F.content files.old) path.now ends) }
    ensures content { F.content files.new ≡ F.content files.old }
    ensures back { LendsNone (F.lent files.old) (F.lent files.new) }
    ensures count { IsErrOf result Status.ConfigRead
        → CountsOne (F.faults files.old) (F.faults files.new) }
    ensures same { ¬ IsErrOf result Status.ConfigRead
        → F.faults files.new ≡ F.faults files.old }
{
    match read_file(alloc, files, path, MAX_FILE) {
        Ok(bytes) => Ok(bytes),
        Err(unread) => Err(status_unread(unread)),
    }
}

/// How a command ends whose file doesn't say what it has to.
pub fn status_wrong(error: ConfigError) -> Status
    ensures { result ≡ status_wrong error }
{
    match error {
        ConfigError::Refused(fault) => Status::ConfigRefused(fault),
        ConfigError::NoMemory => Status::NoMemory,
    }
}

// How a command ends whose file wasn't read whole.
fn status_unread(unread: Unread) -> Status
    ensures { result ≡ status_unread unread }
{
    match unread {
        Unread::Memory => Status::NoMemory,
        Unread::Fault => Status::ConfigRead,
        Unread::Long => Status::ConfigRefused(ConfigFault {
            line: 0,
            column: 0,
            kind: ConfigKind::Long,
        }),
    }
}
