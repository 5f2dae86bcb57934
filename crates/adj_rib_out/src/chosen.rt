//! What a key of the table was given.

use crate::entry::Owner;

/// A written value by its number, and who asked for it.
#[derive(Clone, Copy)]
pub struct Chosen {
    pub(crate) value: usize,
    pub(crate) owner: Owner,
}
