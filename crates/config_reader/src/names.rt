//! The names of the processes that a neighbour hears.
ghost use Rattle.std.specs.Prelude.{◌≡◌, IfOk};
ghost use Rattle.config_reader.specs.Neighbors.{names_of};

use crate::written::Heard;
use config_model::{Name, Names};
use indexmap::IndexSet;
use route_values::NoMemory;
use std::alloc::Global;

/// The names that are heard, each at its first place.
pub fn names_of(alloc: Global, heard: &[Heard]) -> Result<Names, NoMemory>
    ensures { IfOk result (λ names. names ≡ names_of heard.now) }
{
    let mut known: IndexSet<Name> = IndexSet::new(alloc);
    'heard: for one in heard {
        known.insert(copy(&one.name))?;
    }
    let names = known.into_iter().collect(alloc)?;
    Ok(Names::from_vec(names))
}

// An equal name.
fn copy(name: &Name) -> Name
    ensures { result ≡ name.now }
{
    let mut copied = Name::new();
    let _ = copied.try_extend_from_slice(name);
    copied
}
