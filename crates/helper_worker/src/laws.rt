//! The law of a sink's way back.
ghost use Rattle.helper_worker.specs.Staying.{AnswersStay};

/// What the reader knows of a sink that came back holds of the whole history, as the replier takes nothing more for an
/// incarnation behind its last entry. The function does nothing: its contract is the law.
pub fn answers_stay()
    ensures { AnswersStay }
{}
