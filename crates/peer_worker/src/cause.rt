//! Why a session is ended.
ghost use Rattle.std.specs.Prelude.{◌≡◌};
ghost use Rattle.peer_worker.specs.Places.{after_cut, after_cause};

use book_history::Cut;

/// What a session that is to end is ended with: the code and subcode of a NOTIFICATION (RFC 4271, section 4.5).
#[derive(Clone, Copy, Debug, PartialEq, Eq)]
pub struct Cause {
    pub code: u8,
    pub sub: u8,
}

/// What a session is to be ended with, by what a cut was answered.
pub fn cause_of(given: Cut) -> Option<Cause>
    ensures { after_cause result ≡ after_cut given }
{
    match given {
        Cut::Reset { code, sub } => Some(Cause { code, sub }),
        Cut::Down | Cut::Nothing | Cut::Message { .. } => None,
    }
}

/// Whether a cut gave a message.
pub fn is_message(given: Cut) -> bool {
    match given {
        Cut::Message { .. } => true,
        Cut::Down | Cut::Nothing | Cut::Reset { .. } => false,
    }
}
