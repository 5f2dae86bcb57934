//! Names of processes.
ghost use Rattle.std.specs.Prelude.{◌≡◌, IfOk};

use config_model::{Name, Names};
use route_values::{Items, NoMemory};
use std::alloc::Global;

/// Equal names.
pub fn copy_names(alloc: Global, names: &[Name]) -> Result<Names, NoMemory>
    ensures { IfOk result (λ copied. copied ≡ names.now) }
{
    let mut copied = Items::new(alloc);
    'names: for name in names {
        copied.push(copy_name(name))?;
    }
    Ok(copied)
}

// An equal name. It takes no memory.
fn copy_name(name: &Name) -> Name
    ensures { result ≡ name.now }
{
    let mut copied = Name::new();
    let _ = copied.try_extend_from_slice(name);
    copied
}
