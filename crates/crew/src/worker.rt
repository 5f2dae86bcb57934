//! The kinds of jobs.
ghost use Rattle.crew.specs.Views.{job_of};
ghost use Rattle.crew.specs.Works.{IsOff, Works};
ghost use Rattle.helper_worker.specs.Rounds.{told as told_by};
ghost use Rattle.peer_worker.specs.Rounds.{told};

use book_gate::GateName;
use control_worker::Keeper;
use helper_worker::{Reader, Replier};
use outside::{Clock, Dialer, Ear, Files, Pause, Spawner};
use peer_worker::Talker;
use std::sync::Wait;

/// A job of one kind or another.
#[derive(Drop)]
pub enum Worker<'g, F, S: Spawner, D, E, C, P, N: GateName> {
    Reading(Reader<'g, S, C, P, N>),
    Replying(Replier<'g, S, P, N>),
    Talking(Talker<'g, D, E, C, P>),
    Keeping(Keeper<'g, F, P>),
}

impl<'g, F: Files, S: Spawner, D: Dialer, E: Ear, C: Clock, P: Pause, N: GateName> Worker<
    'g,
    F,
    S,
    D,
    E,
    C,
    P,
    N,
> {
    /// Does the job, until the daemon is to end.
    pub fn run<R: Wait>(&mut self, rt: &R)
        ensures { Works F.content F.faults F.lent
            (λ spawner. told_by (S.children spawner) (S.asked spawner) (S.failed spawner))
            (λ dialer. told (D.links dialer) (D.asked dialer) (D.failed dialer))
            C.moments (job_of self.old) (job_of self.new) }
    {
        match self {
            Worker::Reading(reader) => reader.run(rt),
            Worker::Replying(replier) => replier.run(rt),
            Worker::Talking(talker) => talker.run(rt),
            Worker::Keeping(keeper) => keeper.run(rt),
        }
    }

    /// Ends the daemon in place of the job.
    pub fn call_off<R: Wait>(&mut self, rt: &R)
        ensures { IsOff (job_of self.old) (job_of self.new) }
    {
        match self {
            Worker::Reading(reader) => reader.call_off(rt),
            Worker::Replying(replier) => replier.call_off(rt),
            Worker::Talking(talker) => talker.call_off(rt),
            Worker::Keeping(keeper) => keeper.call_off(rt),
        }
    }
}
