//! The lines of a stream of bytes.
ghost use Rattle.std.specs.Prelude.{◌≡◌, ◌∷◌, ◌<◌, [], length, IfSome, IfNone};
ghost use Rattle.std.specs.List.{list_all};
ghost use Rattle.std.specs.Option.{option_to_list, option_map};
ghost use Rattle.text_forms.specs.Blanks.{is_blank_byte};
ghost use Rattle.text_forms.specs.Lines.{lines, line_or_none, without_return, IsFirstLine};
ghost use Rattle.text_forms.specs.LineTold.{line_told};

use crate::cutting::cut;
use crate::word::is_blank;

// How many bytes a line has at most. Its carriage return counts, its line feed doesn't.
const MAX_LINE: usize = 65_535;

/// A line of a stream, without the line feed that ended it and without one carriage return before that.
#[derive(Clone, Copy, Debug, PartialEq)]
pub enum Line<'a> {
    /// The line's bytes.
    Text(&'a [u8]),
    /// A line of more than 65,535 bytes, its carriage return counted. Its bytes aren't told.
    TooLong,
}

/// The first line, and the bytes behind it.
///
/// A line ends with a line feed. One of spaces and tabs alone is passed over, however long it is. None says that no
/// line stands there whole: bytes behind the last line feed are no line yet.
pub fn first_line(bytes: &[u8]) -> Option<(Line<'_>, &[u8])>
    ensures place { IfSome result (λ parts. IsFirstLine bytes.now (line_told parts.0) parts.1.now) }
    ensures found { IfSome result
        (λ parts. lines bytes.now ≡ line_told parts.0 ∷ lines parts.1.now) }
    ensures shorter { IfSome result (λ parts. length parts.1.now < length bytes.now) }
    ensures none { IfNone result (lines bytes.now ≡ []) }
{
    let mut rest = bytes;
    'parts: while let Some((part, after)) = cut(rest, b'\n') {
        if let Some(line) = line_in(part) {
            return Some((line, after));
        }
        rest = after;
    }
    // What no line feed ends is no line yet.
    None
}

// The line that a part between two line feeds makes, if it makes one.
fn line_in(part: &[u8]) -> Option<Line<'_>>
    ensures { option_to_list (option_map line_told result) ≡ line_or_none part.now }
{
    let text = trimmed(part);
    if is_blank_line(text) {
        return None;
    }
    if part.len() > MAX_LINE {
        return Some(Line::TooLong);
    }
    Some(Line::Text(text))
}

fn is_blank_line(line: &[u8]) -> bool
    ensures { result ≡ list_all is_blank_byte line.now }
{
    line.iter().all(|b| is_blank(*b))
}

fn trimmed(part: &[u8]) -> &[u8]
    ensures { result.now ≡ without_return part.now }
{
    match part.split_last() {
        Some((last, front)) if *last == b'\r' => front,
        _ => part,
    }
}
