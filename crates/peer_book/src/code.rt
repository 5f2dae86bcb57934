//! The codes that end sessions.
use std::marker::Model;

/// The code and the subcode of a NOTIFICATION (RFC 4271, section 4.5).
#[derive(Clone, Copy, Debug, PartialEq, Eq)]
pub struct Code {
    code: u8,
    sub: u8,
}

impl Model for Code {
    ghost use Rattle.peer_history.specs.Steps.{Code};

    ghost Value = { Code };

    ghost view = { λ c. record { code = c.code; sub = c.sub } };

    ghost inverse = { λ c. record { code = c.code; sub = c.sub } };
}

impl Code {
    ghost use Rattle.std.specs.Prelude.{◌≡◌};

    /// A code with its subcode.
    pub fn new(code: u8, sub: u8) -> Code
        ensures { result ≡ record { code = code; sub = sub } }
    {
        Code { code, sub }
    }

    /// The code.
    pub fn code(&self) -> u8
        ensures { result ≡ self.now.code }
    {
        self.code
    }

    /// The subcode.
    pub fn sub(&self) -> u8
        ensures { result ≡ self.now.sub }
    {
        self.sub
    }
}
