//! The laws of batches.
ghost use Rattle.peer_history.specs.Laws.{BatchesArePacked, HeldAreVisible, LeftAreVisible};
ghost use Rattle.peer_history.specs.Laws.{NodesAreListed, NothingPending, SessionsAddNoNode};
ghost use Rattle.peer_history.specs.Laws.{Settled, WantedAreListed, WholeBatches};

use update_grammar::{reading_is_spelling, written_is_spelled};

/// After each whole batch of a legal history the peer has exactly the table that was wanted when the batch began: of
/// what the batch owed each key and each marker is named once, and nothing else is. Whatever happens between two
/// messages of a batch concerns the next one. A batch has no more messages than it names keys, and one a family.
pub fn whole_batches()
    ensures { WholeBatches }
{
    reading_is_spelling();
    written_is_spelled();
}

/// Where a cut answers that nothing is to be sent, the peer has the table of the whole history.
pub fn nothing_pending()
    ensures { NothingPending }
{
    reading_is_spelling();
    written_is_spelled();
}

/// What isn't left of the open batch, or of one that would begin now, has its value at the peer already.
pub fn settled()
    ensures { Settled }
{
    reading_is_spelling();
    written_is_spelled();
}

/// A peer has, and is owed, keys alone that its session carries.
pub fn visible()
    ensures held { HeldAreVisible }
    ensures left { LeftAreVisible }
{
    reading_is_spelling();
    written_is_spelled();
}

/// The messages of every batch are packed: those of one kind stand together, and each but the last of them has no room
/// for the first key of the next.
pub fn batches_are_packed()
    ensures { BatchesArePacked }
{}

/// Sessions and their messages add no node, so the room that a table was given for its keys lasts.
pub fn nodes_stay()
    ensures { SessionsAddNoNode }
{
    reading_is_spelling();
    written_is_spelled();
}

/// The lists of a table's keys and of its nodes have just those keys, each once.
pub fn nodes_are_listed()
    ensures wanted { WantedAreListed }
    ensures nodes { NodesAreListed }
{
    reading_is_spelling();
    written_is_spelled();
}
