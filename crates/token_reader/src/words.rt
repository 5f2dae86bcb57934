//! What a grammar reads tokens from.
ghost use Rattle.std.specs.Prelude.{◌≡◌, ◌<◌, ◌≤◌, List, length};
ghost use Rattle.std.specs.Option.{option_map};
ghost use Rattle.token_reader.specs.Tokens.{Placed, token_told, front_token, front_place};
ghost use Rattle.token_reader.specs.Tokens.{behind_front};
ghost use Rattle.token_reader.specs.declared.token.Place.{Place};

use crate::token::{Place, Token};

/// The most bytes that a file of tokens has, and so the most tokens.
pub const MAX_FILE: usize = 1_048_576;

/// Tokens that are read from the front, one after another.
pub trait Words {
    /// The tokens that are left, in order, and where each begins.
    ghost left: { Self → List Placed };

    /// Where the text ends.
    ghost end: { Self → Place };

    /// The front token. None exactly where no token is left.
    fn peek(&self) -> Option<Token<'_>>
        ensures token { option_map token_told result ≡ front_token (left self.now) }
        ensures few { length (left self.now) ≤ MAX_FILE };

    /// Goes past the front token. Where none is left it changes nothing.
    fn advance(&mut self)
        ensures left { left self.new ≡ behind_front (left self.old) }
        ensures end { end self.new ≡ end self.old };

    /// Where the front token begins, or where none is left, the end.
    fn place(&self) -> Place
        ensures place { result ≡ front_place (left self.now) (end self.now) }
        ensures counted { (0 < result.line) × (0 < result.column) };
}
