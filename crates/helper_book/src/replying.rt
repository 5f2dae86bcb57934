//! What a line is replied.
ghost use Rattle.std.specs.Prelude.{◌≡◌};
ghost use Rattle.book_history.specs.Replies.{acks_after, refusal};
ghost use Rattle.helper_book.specs.Told.{replied};

use ack_queue::Reply;
use book_history::Why;
use command_grammar::Command;

/// The reply to a refused line.
pub fn refusal(why: Why) -> Reply
    ensures { result ≡ refusal why }
{
    match why {
        Why::NoMemory => Reply::NoMemory,
        Why::Line(_) | Why::NoMatch | Why::Full(_) | Why::Show(_) => Reply::Error,
    }
}

/// Whether a line that is done is replied to, by its command and whether replies were on.
pub fn replied(command: &Command, was: bool) -> bool
    ensures { result ≡ replied command.now was }
{
    match command {
        Command::EnableAck => true,
        _ => was,
    }
}

/// Whether replies are on behind a command, by whether they were.
pub fn acks_after(command: &Command, was: bool) -> bool
    ensures { result ≡ acks_after command.now was }
{
    match command {
        Command::DisableAck => false,
        Command::EnableAck => true,
        _ => was,
    }
}
