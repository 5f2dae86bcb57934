//! Why a file gives no configuration.
use answers::NoMemory;
use config_model::ConfigFault;
use thiserror::Error;

/// Why a reader of a configuration gives no value.
#[derive(Clone, Copy, Debug, PartialEq, Eq, Drop, Error)]
pub enum ConfigError {
    /// The file is no configuration, and this is its first fault.
    #[error("{0}")]
    Refused(ConfigFault),
    /// Memory ran out.
    #[error("no memory")]
    NoMemory,
}

impl From<NoMemory> for ConfigError {
    ghost use Rattle.std.specs.Prelude.{◌≡◌};
    ghost use Rattle.config_reader.specs.declared.fault.ConfigError.TheVariants as error;

    ghost from_gives = { λ memory fault. fault ≡ error.NoMemory };

    fn from(_: NoMemory) -> ConfigError {
        ConfigError::NoMemory
    }
}
