//! One link, as far as it is spoken on.
ghost use Rattle.std.specs.Prelude.{◌≡◌, false};

/// A link, and what became of what was said on it.
#[derive(Drop)]
pub struct Voice<L> {
    pub link: L,
    /// Whether a send failed. Nothing more is sent then.
    pub broken: bool,
    /// Whether the ear was told that a session came up, and not yet that it ended.
    pub up: bool,
    /// Whether the session was ended because the daemon ends.
    pub stopped: bool,
}

impl<L> Voice<L> {
    /// Of a link on which nothing was sent.
    pub fn new(link: L) -> Self
        ensures link { result.link ≡ link }
        ensures broken { result.broken ≡ false }
    {
        Voice {
            link,
            broken: false,
            up: false,
            stopped: false,
        }
    }

    /// The link.
    pub fn apart(self) -> L
        ensures { result ≡ self.link }
    {
        let Voice {
            link,
            broken: _,
            up: _,
            stopped: _,
        } = self;
        link
    }
}
