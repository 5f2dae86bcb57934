//! Which lines are passed over.
ghost use Rattle.std.specs.Prelude.{◌≡◌};
ghost use Rattle.std.specs.List.{list_all, list_any};
ghost use Rattle.std.specs.Str.{bytes_eq};
ghost use Rattle.text_forms.specs.Blanks.{is_blank_byte};
ghost use Rattle.message_decoder.specs.Decoding.{is_passed_over, replies};

use text_forms::is_blank;
use text_printer::without_return;

/// Whether a line is passed over: it is of spaces and tabs alone, or a reply that other commands print besides
/// messages, with a carriage return or without.
pub fn is_passed_over(line: &[u8]) -> bool
    ensures { result ≡ is_passed_over line.now }
{
    let text = without_return(line);
    is_blank_line(text) || is_reply(text)
}

fn is_blank_line(text: &[u8]) -> bool
    ensures { result ≡ list_all is_blank_byte text.now }
{
    text.iter().all(|b| is_blank(*b))
}

fn is_reply(text: &[u8]) -> bool
    ensures { result ≡ list_any (bytes_eq text.now) replies }
{
    is(text, b"done") || is(text, b"error") || is(text, b"error memory") || is(text, b"nothing")
}

fn is(text: &[u8], reply: &[u8]) -> bool
    ensures { result ≡ bytes_eq text.now reply.now }
{
    text == reply
}
