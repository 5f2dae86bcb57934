//! The laws of a run's history.
ghost use Rattle.daemon.specs.Laws.{
  RunsAnswer,
  RunsCount,
  RunsEnd,
  RunsEnter,
  RunsName,
  RunsReload,
  RunsShutDown,
  RunsStop,
};

/// What follows of the history that `exabgp_run` leaves in `World::last`. The function does nothing: its contract is
/// the law.
///
/// - `enter`: each entry is one of the worker's whose name it has, or ends the daemon in place of a worker that was
///   refused.
/// - `stop`: the daemon was ended by a worker only where one was refused.
/// - `name`: that a helper is gone or no longer reads, and that a session is no more, has the name of a worker of its
///   slot.
/// - `reload`: among the keeper's entries each reload that is due is directly followed by its answer, and answers come
///   nowhere else.
/// - `count`: no more reloads were refused for a file that wasn't read than the files' count of faults rose by.
///
/// Where no worker was refused:
///
/// - `end`: each worker's last question was answered by the end of the daemon.
/// - `shut_down`: the daemon ended by a shutdown that was accepted, and by no worker.
/// - `answer`: the sink of each helper that came back had taken the front of the replies that its slot's replier took
///   for it in the whole history, and all of them unless it has failed.
pub fn runs_tell()
    ensures enter { RunsEnter }
    ensures stop { RunsStop }
    ensures name { RunsName }
    ensures reload { RunsReload }
    ensures count { RunsCount }
    ensures end { RunsEnd }
    ensures shut_down { RunsShutDown }
    ensures answer { RunsAnswer }
{}
