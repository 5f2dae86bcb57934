//! Jobs beside each other.
ghost use Rattle.std.specs.Fork.{AcceptsEach, ChangesEach};

use std::thread;
use std::thread::Threads;

/// Does the work at each job, with a thread for each, and returns once all have ended.
///
/// Where the system makes no thread the jobs run one after another, and those that wait for each
/// other may wait for ever.
pub fn work_beside<R: Threads + Sync, J: Send, F: Fn(usize, &mut J) + Sync>(
    rt: &R,
    jobs: &mut [J],
    work: &F,
)
    requires { AcceptsEach F.Fn work.now jobs.old }
    ensures { ChangesEach F.Fn work.now jobs.old jobs.new }
{
    let count = jobs.len();
    if count > 0 {
        thread::for_each_mut(rt, jobs, count, work);
    }
}
