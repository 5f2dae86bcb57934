//! A worker's loop over the lines of a stream that comes in pieces.
ghost use Rattle.std.specs.Prelude.{ℕ, ◌≡◌, ◌++◌, List, None};
ghost use Rattle.line_cutter.specs.Cutting.{standing};
ghost use Rattle.line_cutter.specs.Chunking.{HasCut};

use crate::LineCutter;
use text_forms::Line;

/// Where lines go.
pub trait Taker {
    ghost use Rattle.std.specs.Prelude.{◌≡◌, ◌∷◌, [], ◌++◌, List};
    ghost use Rattle.text_forms.specs.Lines.{Line as Told};
    ghost use Rattle.text_forms.specs.LineTold.{line_told};

    /// The lines that it took.
    ghost taken: { Self → List Told };

    fn take(&mut self, line: Line<'_>)
        ensures { taken self.new ≡ taken self.old ++ line_told line.entry ∷ [] };
}

/// Takes the lines that a piece ends.
pub fn take_lines<T: Taker>(cutter: &mut LineCutter, piece: &[u8], taker: &mut T)
    requires { standing cutter.old ≡ None }
    ensures none { standing cutter.new ≡ None }
    ensures cut { (front : List ℕ) → HasCut front (T.taken taker.old) cutter.old
        → HasCut (front ++ piece.now) (T.taken taker.new) cutter.new }
{
    let mut rest = piece;
    'lines: loop {
        let count = cutter.feed(rest);
        (_, rest) = rest.split_at(count);
        let Some(line) = cutter.peek() else {
            return;
        };
        taker.take(line);
        cutter.advance();
    }
}
