//! The cutter.
ghost use Rattle.std.specs.Prelude.{◌≡◌, ◌↔◌, ◌⊎◌, ◌≤◌, [], length, IfOk, IsTrue, IsNone, false};
ghost use Rattle.std.specs.Option.{option_map};
ghost use Rattle.text_forms.specs.Lines.{without_return};
ghost use Rattle.text_forms.specs.LineTold.{line_told};

use crate::content::Content;
use crate::kept::Kept;
use crate::parting::parted;
use answers::NoMemory;
use std::alloc::Global;
use std::marker::Model;
use text_forms::Line;

/// Cuts a stream of bytes into lines. Bytes come in pieces of any size, and each line is looked at where it lies.
///
/// A line ends with a line feed; one carriage return before that is dropped. Lines of spaces and tabs alone are passed
/// over, however long they are. One of more than 65,535 bytes, its carriage return counted, is told without its bytes.
/// What no line feed ended yet is no line.
///
/// `new` alone takes memory, and no more than 65,535 bytes are held. `feed` takes time by the bytes that it takes, and
/// copies each once at most; `peek`, `advance` and `reset` take constant time.
#[derive(Drop)]
pub struct LineCutter {
    // The first bytes of the part that came behind the last line feed, or whose line stands.
    kept: Kept,
    // Whether it has more than those.
    long: bool,
    // Whether it is blank.
    content: Content,
    // Whether its line stands.
    ended: bool,
}

impl Model for LineCutter {
    ghost use Rattle.line_cutter.specs.Cutting.{Cutting};

    ghost Value = { Cutting };

    ghost view = { λ cutter. record {
      bytes = cutter.kept;
      long = cutter.long;
      content = cutter.content;
      ended = cutter.ended;
    } };
}

impl LineCutter {
    ghost use Rattle.line_cutter.specs.Cutting.{fresh, standing, grown, closed, fed, count_of};
    ghost use Rattle.line_cutter.specs.Cutting.{advanced};

    /// A cutter of a stream of which nothing has come.
    pub fn new(alloc: Global) -> Result<LineCutter, NoMemory>
        ensures { IfOk result (λ cutter. cutter ≡ fresh) }
    {
        Ok(LineCutter {
            kept: Kept::new(alloc)?,
            long: false,
            content: Content::Blank,
            ended: false,
        })
    }

    /// Begins with a new stream.
    pub fn reset(&mut self)
        ensures { self.new ≡ fresh }
    {
        self.kept.clear();
        self.long = false;
        self.content = Content::Blank;
        self.ended = false;
    }

    /// Takes bytes from the front of a piece, up to and with the first line feed that ends a line which isn't blank,
    /// and answers how many. While a line stands it takes none.
    pub fn feed(&mut self, piece: &[u8]) -> usize
        ensures count { result ≡ count_of piece.now self.old }
        ensures taken { self.new ≡ fed piece.now self.old }

        // When it takes nothing, and when it leaves bytes.
        ensures nothing { (result ≡ 0) ↔ ((piece.now ≡ []) ⊎ IsTrue self.old.ended) }
        ensures within { result ≤ length piece.now }
        ensures whole { (result ≡ length piece.now) ⊎ IsTrue self.new.ended }
        ensures stuck { IsTrue self.old.ended → self.new ≡ self.old }
    {
        if self.stands() {
            return 0;
        }
        let mut rest = piece;
        'parts: while let Some((part, behind)) = parted(rest) {
            self.grow(part);
            self.close();
            rest = behind;
            if self.stands() {
                return piece.len() - rest.len();
            }
        }
        self.grow(rest);
        piece.len()
    }

    /// The line that stands, or None where none does.
    pub fn peek(&self) -> Option<Line<'_>>
        ensures exact { option_map line_told result ≡ standing self.now }
        ensures none { IsNone result ↔ (self.now.ended ≡ false) }
    {
        if !self.ended {
            return None;
        }
        if self.long {
            return Some(Line::TooLong);
        }
        Some(Line::Text(trimmed(self.kept.bytes())))
    }

    /// Passes the line that stands. Where none does, nothing changes.
    pub fn advance(&mut self)
        ensures { self.new ≡ advanced self.old }
    {
        if self.ended {
            self.reset();
        }
    }

    // Whether a line stands.
    fn stands(&self) -> bool
        ensures { result ≡ self.now.ended }
    {
        self.ended
    }

    // Takes bytes of the part.
    fn grow(&mut self, piece: &[u8])
        ensures { self.new ≡ grown piece.now self.old }
    {
        let fits = piece.len().min(self.kept.spare());
        self.kept.append(&piece[..fits]);
        if fits < piece.len() {
            self.long = true;
        }
        self.content = self.content.behind(piece);
    }

    // Takes the line feed of the part.
    fn close(&mut self)
        ensures { self.new ≡ closed self.old }
    {
        if self.content.is_blank() {
            self.reset();
        } else {
            self.ended = true;
        }
    }
}

// A part without one carriage return at its end.
fn trimmed(part: &[u8]) -> &[u8]
    ensures { result.now ≡ without_return part.now }
{
    match part.split_last() {
        Some((last, front)) if *last == b'\r' => front,
        _ => part,
    }
}
