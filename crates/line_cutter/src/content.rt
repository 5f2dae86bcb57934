//! Whether a part makes a blank line.
ghost use Rattle.std.specs.Prelude.{◌≡◌};
ghost use Rattle.std.specs.List.{fold};
ghost use Rattle.line_cutter.specs.Contents.{content_after, is_blank_content};

use text_forms::is_blank;

/// What the bytes of a part are, as far as it tells whether their line is blank.
#[derive(Clone, Copy, Debug)]
pub enum Content {
    /// Spaces and tabs alone.
    Blank,
    /// Spaces and tabs, and then one carriage return.
    Returned,
    /// Others. More bytes don't change that.
    Filled,
}

impl Content {
    /// Whether the line is blank, if it ends here.
    pub fn is_blank(self) -> bool
        ensures { result ≡ is_blank_content self }
    {
        match self {
            Content::Blank | Content::Returned => true,
            Content::Filled => false,
        }
    }

    /// The content with bytes behind it.
    pub fn behind(self, piece: &[u8]) -> Content
        ensures { result ≡ fold content_after self piece.now }
    {
        let mut content = self;
        'bytes: for byte in piece {
            if let Content::Filled = content {
                return content;
            }
            content = content.after(*byte);
        }
        content
    }

    // The content with a byte behind it.
    fn after(self, byte: u8) -> Content
        ensures { result ≡ content_after self byte }
    {
        match self {
            Content::Blank if is_blank(byte) => Content::Blank,
            Content::Blank if byte == b'\r' => Content::Returned,
            _ => Content::Filled,
        }
    }
}
