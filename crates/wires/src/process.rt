//! Whether a process has ended.

use std::alloc::{AllocError, Global};

// The state of a process that has ended and whose status nobody has asked for (proc(5), `stat`).
const ZOMBIE: u8 = b'Z';

// The state of a process that is about to vanish.
const DEAD: u8 = b'X';

/// A process, by the file in which the system says how it is.
#[derive(Debug, Drop)]
pub struct Watch {
    path: String,
}

impl Watch {
    /// A watch of the process with this number.
    pub fn new(alloc: Global, process: u32) -> Result<Self, AllocError> {
        Ok(Watch {
            path: format!(in alloc; "/proc/{process}/stat")?,
        })
    }

    /// Whether it has ended and its status wasn't asked for yet. Where the system doesn't say, the
    /// answer is no.
    ///
    /// Until the status of a child is asked for, its number is no other process's.
    pub fn has_ended(&self) -> bool {
        let file = os::open_read(self.path.as_bytes());
        if file < 0 {
            return false;
        }
        let mut text = [0; 64];
        libc::read(file, &mut text);
        libc::close(file);
        matches!(state_of(&text), Some(ZOMBIE | DEAD))
    }
}

// The letter behind the program's name, which stands in brackets and may hold brackets itself.
fn state_of(text: &[u8]) -> Option<u8> {
    let bracket = text.iter().rposition(|byte| *byte == b')')?;
    text.get(bracket..)?.get(2).copied()
}
