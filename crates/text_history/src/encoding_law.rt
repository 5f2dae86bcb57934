//! The law of encodings.
ghost use Rattle.text_history.specs.Leaving.{EncodingsLeaveTables};

use peer_history::{batches_are_packed, nothing_pending, whole_batches};
use update_grammar::{reading_is_spelling, written_is_spelled};

/// What `encode` leaves, over every configuration and every input: each neighbour, reading its messages by the grammar
/// of UPDATE messages, has exactly the table that the answered lines leave at it.
///
/// - The messages of routes name each key of the table once and no other. Those of one kind stand together, and each
///   of them but the last has no room for the next one's first key.
/// - The End-of-RIB markers of the session's families come behind them (RFC 4724, section 2), and nothing behind these.
///   Of all messages the final one alone is said to be the last.
/// - Where a line ended the session there is no message: the only cut answers the code that the session ends with.
///
/// The function does nothing: its contract is the law.
pub fn encodings_leave_tables()
    ensures { EncodingsLeaveTables }
{
    nothing_pending();
    whole_batches();
    batches_are_packed();
    reading_is_spelling();
    written_is_spelled();
}
