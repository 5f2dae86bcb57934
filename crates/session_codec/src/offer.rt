//! What an OPEN offers.

/// Which way a speaker offers path identifiers for a family (RFC 7911, section 4).
#[derive(Clone, Copy, Debug, PartialEq, Eq)]
pub enum Path {
    /// Neither way.
    None,
    /// It takes prefixes with identifiers.
    Receive,
    /// It writes prefixes with identifiers.
    Send,
    /// Both ways.
    Both,
}

/// What the OPEN of a neighbour says (RFC 4271, section 4.2; RFC 5492).
#[derive(Clone, Copy, Debug, PartialEq, Eq)]
pub struct Open {
    /// The number of its AS, of four bytes (RFC 6793).
    pub asn: u32,
    /// The hold time that it offers, in seconds: 0 for none, or at least 3.
    pub hold: u16,
    /// Its BGP identifier, which isn't 0.
    pub id: u32,
    /// Whether it has the family (RFC 4760, section 8).
    pub ipv4: bool,
    pub ipv6: bool,
    /// Whether it takes requests for all routes of a family (RFC 2918).
    pub refresh: bool,
    /// Whether it takes messages of up to 65,535 bytes (RFC 8654).
    pub extended: bool,
    /// Which way it offers path identifiers for the family.
    pub ipv4_path: Path,
    pub ipv6_path: Path,
}

impl Path {
    ghost use Rattle.std.specs.Prelude.{◌≡◌};
    ghost use Rattle.session_codec.specs.Agree.{is_receiver, is_sender};

    /// Whether the speaker takes prefixes with identifiers.
    pub fn receives(self) -> bool
        ensures { result ≡ is_receiver self }
    {
        match self {
            Path::Receive | Path::Both => true,
            Path::None | Path::Send => false,
        }
    }

    /// Whether the speaker writes prefixes with identifiers.
    pub fn sends(self) -> bool
        ensures { result ≡ is_sender self }
    {
        match self {
            Path::Send | Path::Both => true,
            Path::None | Path::Receive => false,
        }
    }
}
