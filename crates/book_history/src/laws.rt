//! The laws of legal histories.
ghost use Rattle.std.specs.Prelude.{◌≡◌};
ghost use Rattle.book_history.specs.Bounds.{max_queued, max_taken};
ghost use Rattle.book_history.specs.DecisionLaws.{FilesAreDecided, ProcessesAreDecided};
ghost use Rattle.book_history.specs.DecisionLaws.{SlotsAreDecided};
ghost use Rattle.book_history.specs.Headline.{NothingPending, SessionsAddNoNode, WholeBatches};
ghost use Rattle.book_history.specs.HelperLaws.{IncarnationsCount, QueuesAreBounded, StartsAreFew};

use ack_queue::{MAX_QUEUED, MAX_TAKEN};

/// The headline: over every legal history, of whatever events, each whole batch that was cut for a neighbour leaves at
/// it exactly the table of the history up to the batch's first cut. The batch names just the keys and the markers that
/// were owed there, each once; its messages are packed, and no more than its keys and families.
pub fn whole_batches()
    ensures { WholeBatches }
{
    peer_history::whole_batches();
    peer_history::batches_are_packed();
}

/// Where a cut answers that nothing is to be sent, the neighbour has the table of the whole history.
pub fn nothing_pending()
    ensures { NothingPending }
{
    peer_history::nothing_pending();
}

/// A helper slot: no more replies wait than its queue holds, its incarnations count from 1, and of the starts since its
/// process was placed or changed no more than five lie within a minute. The bounds of a queue are those of `ack_queue`.
pub fn helpers_are_bounded()
    ensures queues { QueuesAreBounded }
    ensures queue_room { max_queued ≡ MAX_QUEUED }
    ensures taken_at_once { max_taken ≡ MAX_TAKEN }
    ensures incarnations { IncarnationsCount }
    ensures starts { StartsAreFew }
{}

/// Sessions that come up or go down, families that are sent again, and messages add no route node. So a bound that a
/// line or a reload kept is kept until the next one.
pub fn nodes_stay()
    ensures { SessionsAddNoNode }
{
    peer_history::nodes_stay();
}

/// The definitions' own tests, and what they decide: a slot's neighbour is selected exactly where `config_model` says
/// so of the two sections; before any reload the slots are the places of the file; and a process's section is left as
/// it was exactly where it is the same.
pub fn tests_decide()
    ensures selection { SlotsAreDecided }
    ensures file { FilesAreDecided }
    ensures processes { ProcessesAreDecided }
{}
