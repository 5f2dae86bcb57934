//! A configuration file.
ghost use Rattle.std.specs.Prelude.{◌≡◌, None, is_none};
ghost use Rattle.std.specs.Option.{option_copied};
ghost use Rattle.config_model.specs.declared.fault.ConfigKind.TheVariants as kind;
ghost use Rattle.config_model.specs.Checked.{first_unknown};
ghost use Rattle.config_model.specs.Sections.{place_of_name};
ghost use Rattle.config_reader.specs.declared.fault.ConfigError.TheVariants as error;
ghost use Rattle.config_reader.specs.Rules.{fault_at};
ghost use Rattle.config_reader.specs.Files.{IsRead, IsSecond, stranger, too_long};

use crate::fault::ConfigError;
use crate::sections::sections_read;
use crate::written::{FileRead, Heard};
use config_model::{Config, ConfigFault, ConfigKind, Process, Slots, check, place_of_process};
use std::alloc::Global;
use token_reader::{FileTokens, MAX_FILE};

/// The configuration that a file's bytes give for so many slots, or their first fault. Only want of memory may come in
/// place of either.
pub fn read_config(alloc: Global, bytes: &[u8], slots: Slots) -> Result<Config, ConfigError>
    ensures { IsRead bytes.now slots result }
{
    if bytes.len() > MAX_FILE {
        return Err(ConfigError::Refused(too_long()));
    }
    let mut words = FileTokens::new(bytes);
    let read = sections_read(alloc, &mut words, slots)?;
    configured(read)
}

fn too_long() -> ConfigFault
    ensures { result ≡ too_long }
{
    ConfigFault {
        line: 0,
        column: 0,
        kind: ConfigKind::Long,
    }
}

// The second pass: the configuration, where each name that is heard has a process.
fn configured(read: FileRead) -> Result<Config, ConfigError>
    requires { stranger read ≡ None → first_unknown read.sections ≡ None }
    ensures { IsSecond read result }
{
    if let Some(one) = stranger(&read) {
        return Err(unknown(one));
    }
    let FileRead { sections, .. } = read;
    let Ok(config) = check(sections) else {
        unreachable!()
    };
    Ok(config)
}

// The first name that is heard and that no process has.
fn stranger(read: &FileRead) -> Option<&Heard>
    ensures { option_copied result ≡ stranger read.now }
{
    let processes = read.sections.processes();
    read.heard
        .as_slice()
        .iter()
        .find(|one| is_unknown(processes, one))
}

fn is_unknown(processes: &[Process], one: &Heard) -> bool
    ensures { result ≡ is_none (place_of_name processes.now one.now.name.items) }
{
    place_of_process(processes, one.name.as_slice()).is_none()
}

// The fault of such a name.
fn unknown(one: &Heard) -> ConfigError
    ensures { result ≡ error.Refused (fault_at kind.Process one.now.place) }
{
    ConfigError::Refused(ConfigFault {
        line: one.place.line,
        column: one.place.column,
        kind: ConfigKind::Process,
    })
}
