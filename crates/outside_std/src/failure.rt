//! Errors that a wait mends.

use std::io;
use std::io::ErrorKind;

// Whether the call would have had to wait, or a signal cut it short.
pub(crate) fn is_passing(error: &io::Error) -> bool {
    matches!(error.kind(), ErrorKind::WouldBlock | ErrorKind::Interrupted)
}
