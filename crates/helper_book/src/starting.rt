//! What is told of an attempt to start a process.
ghost use Rattle.std.specs.Prelude.{◌≡◌, ◌||◌};
ghost use Rattle.helper_core.specs.Starting.{is_go};
ghost use Rattle.helper_book.specs.Told.{spawn_of, words_of};

use arrayvec::ArrayVec;
use book_history::Spawn;
use config_model::{MAX_RUN, Process};
use helper_core::Start;

/// Whether lines are replied to behind an attempt, by whether they were: those of a new incarnation are.
pub fn acks_after(start: Start, was: bool) -> bool
    ensures { result ≡ (is_go start || was) }
{
    match start {
        Start::Go(_) => true,
        Start::Absent | Start::Running | Start::GiveUp => was,
    }
}

/// What is told of an attempt to start this process.
pub fn spawn_of(start: Start, process: &Option<Process>) -> Spawn
    ensures { result ≡ spawn_of start process.now }
{
    match start {
        Start::Absent => Spawn::Absent,
        Start::Running => Spawn::Running,
        Start::GiveUp => Spawn::GiveUp,
        Start::Go(inc) => Spawn::Go {
            inc,
            run: words_of(process),
        },
    }
}

// The words that start a process.
fn words_of(process: &Option<Process>) -> ArrayVec<u8, MAX_RUN>
    ensures { result ≡ words_of process.now }
{
    let mut run = ArrayVec::new();
    if let Some(process) = process {
        let _ = run.try_extend_from_slice(&process.run);
    }
    run
}
