//! Files whose content is at hand.
ghost use Rattle.std.specs.Prelude.{◌≡◌};
ghost use Rattle.outside.specs.Held.{content_at};

/// A file in memory.
#[derive(Clone, Copy, Debug)]
pub struct HeldFile<'a> {
    /// The path at which it stands.
    pub path: &'a str,
    /// All its bytes.
    pub content: &'a [u8],
}

/// The content of the first file with this path, or nothing where none has it.
pub fn content_of<'a>(held: &[HeldFile<'a>], path: &str) -> &'a [u8]
    ensures { result.now ≡ content_at held.now path.now }
{
    for file in held {
        if file.path == path {
            return file.content;
        }
    }
    &[]
}
