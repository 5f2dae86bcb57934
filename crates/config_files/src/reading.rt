//! A file read as a configuration.
ghost use Rattle.std.specs.Prelude.{◌≡◌, IfErr, IfOk, IsErrOf};
ghost use Rattle.outside.specs.Lent.{LendsNone};
ghost use Rattle.outside.specs.Told.{CountsOne};
ghost use Rattle.config_files.specs.Configured.{IsConfigAt, IsNoneAt, why_unread, why_wrong};

use book_history::NotRead;
use config_model::{Config, ConfigFault, ConfigKind, Slots};
use config_reader::{ConfigError, read_config};
use outside::{Files, Unread, read_file};
use std::alloc::Global;
use token_reader::MAX_FILE;

/// The configuration of the file at a path, for so many slots.
///
/// The file is read whole before anything in it is looked at, and no further than one byte past 1,048,576 bytes. What
/// was opened is given back. Its first fault is `Refused`; a file that is too long has that fault at 0:0. `ReadFault`
/// says that the file wasn't opened or that a read of it failed, and counts one fault; nothing else does.
pub fn read_config_at<F: Files>(
    alloc: Global,
    files: &mut F,
    path: &str,
    slots: Slots,
) -> Result<Config, NotRead>
    ensures config { IfOk result
        (λ config. IsConfigAt (F.content files.old) path.now slots config) }
    ensures none { IfErr result (λ why. IsNoneAt (F.content files.old) path.now slots why) }
    ensures content { F.content files.new ≡ F.content files.old }
    ensures back { LendsNone (F.lent files.old) (F.lent files.new) }
    ensures count { IsErrOf result NotRead.ReadFault
        → CountsOne (F.faults files.old) (F.faults files.new) }
    ensures same { ¬ IsErrOf result NotRead.ReadFault
        → F.faults files.new ≡ F.faults files.old }
{
    let bytes = match read_file(alloc, files, path, MAX_FILE) {
        Ok(bytes) => bytes,
        Err(unread) => return Err(why_unread(unread)),
    };
    match read_config(alloc, &bytes, slots) {
        Ok(config) => Ok(config),
        Err(error) => Err(why_wrong(error)),
    }
}

// Why there is no configuration where a file wasn't read whole.
fn why_unread(unread: Unread) -> NotRead
    ensures { result ≡ why_unread unread }
{
    match unread {
        Unread::Memory => NotRead::NoMemory,
        Unread::Fault => NotRead::ReadFault,
        Unread::Long => NotRead::Refused(ConfigFault {
            line: 0,
            column: 0,
            kind: ConfigKind::Long,
        }),
    }
}

// Why there is no configuration where a file's bytes are none.
fn why_wrong(error: ConfigError) -> NotRead
    ensures { result ≡ why_wrong error }
{
    match error {
        ConfigError::Refused(fault) => NotRead::Refused(fault),
        ConfigError::NoMemory => NotRead::NoMemory,
    }
}
