//! Running the jobs.
ghost use Rattle.std.specs.Prelude.{◌≡◌, false, length, true};
ghost use Rattle.std.specs.List.{AllZip};
ghost use Rattle.crew.specs.Crews.{EachBecame, Ends, RefusesNone, RefusesOne};
ghost use Rattle.crew.specs.Views.{jobs_of};
ghost use Rattle.crew.specs.Works.{AllGo};
ghost use Rattle.helper_worker.specs.Rounds.{told as told_by};
ghost use Rattle.outside.specs.Refusals.{is_refused};
ghost use Rattle.outside.specs.Told.{Rose};
ghost use Rattle.peer_worker.specs.Rounds.{told};

use crate::marking::{Marked, mark_all};
use crate::place::Place;
use crate::worker::Worker;
use book_gate::GateName;
use outside::{Clock, CrewPlan, Dialer, Ear, Files, Pause, Spawner};
use std::sync::Wait;
use std::thread;
use std::thread::Threads;

/// The jobs after their work.
#[derive(Drop)]
pub struct Worked<'g, F, S: Spawner, D, E, C, P, N: GateName> {
    pub places: Vec<Place<Worker<'g, F, S, D, E, C, P, N>>>,
    /// Whether none was refused.
    pub all: bool,
}

// Does one job, or calls it off.
fn end<R: Wait, F: Files, S: Spawner, D: Dialer, E: Ear, C: Clock, P: Pause, N: GateName>(
    rt: &R,
    place: &mut Place<Worker<'_, F, S, D, E, C, P, N>>,
)
    ensures { Ends F.content F.faults F.lent
        (λ spawner. told_by (S.children spawner) (S.asked spawner) (S.failed spawner))
        (λ dialer. told (D.links dialer) (D.asked dialer) (D.failed dialer))
        C.moments place.old place.new }
{
    if place.refused {
        place.worker.call_off(rt);
    } else {
        place.worker.run(rt);
    }
}

// Does each job, or calls it off, all beside each other.
fn end_each<
    R: Threads + Wait + Sync,
    F: Files + Send,
    S: Spawner + Send,
    D: Dialer + Send,
    E: Ear + Send,
    C: Clock,
    P: Pause,
    N: GateName + Send,
>(rt: &R, places: &mut [Place<Worker<'_, F, S, D, E, C, P, N>>])
    ensures { EachBecame (Ends F.content F.faults F.lent
        (λ spawner. told_by (S.children spawner) (S.asked spawner) (S.failed spawner))
        (λ dialer. told (D.links dialer) (D.asked dialer) (D.failed dialer))
        C.moments) places.old places.new }
{
    let count = places.len();
    if count > 0 {
        thread::for_each_mut(
            rt,
            places,
            count,
            &|_: usize, place: &mut Place<Worker<'_, F, S, D, E, C, P, N>>|
                ensures { Ends F.content F.faults F.lent
                    (λ spawner. told_by (S.children spawner) (S.asked spawner) (S.failed spawner))
                    (λ dialer. told (D.links dialer) (D.asked dialer) (D.failed dialer))
                    C.moments place.old place.new }
            { end(rt, place) },
        );
    }
}

// Does each job of a list, or calls it off, all beside each other.
fn end_all<
    'g,
    R: Threads + Wait + Sync,
    F: Files + Send,
    S: Spawner + Send,
    D: Dialer + Send,
    E: Ear + Send,
    C: Clock,
    P: Pause,
    N: GateName + Send,
>(
    rt: &R,
    mut places: Vec<Place<Worker<'g, F, S, D, E, C, P, N>>>,
) -> Vec<Place<Worker<'g, F, S, D, E, C, P, N>>>
    ensures { AllZip (Ends F.content F.faults F.lent
        (λ spawner. told_by (S.children spawner) (S.asked spawner) (S.failed spawner))
        (λ dialer. told (D.links dialer) (D.asked dialer) (D.failed dialer))
        C.moments) places.entry.items result.items }
{
    end_each(rt, &mut places);
    places
}

/// Does each job, all beside each other, and returns once all have ended.
///
/// The plan is asked once for each job, in order and counted from 0. The jobs that it refuses are called off, beside
/// the others, which ends the daemon; each counts one fault of the plan.
pub fn work<
    'g,
    R: Threads + Wait + Sync,
    F: Files + Send,
    S: Spawner + Send,
    D: Dialer + Send,
    E: Ear + Send,
    C: Clock,
    P: Pause,
    N: GateName + Send,
>(
    rt: &R,
    plan: &mut CrewPlan<'_>,
    places: Vec<Place<Worker<'g, F, S, D, E, C, P, N>>>,
) -> Worked<'g, F, S, D, E, C, P, N>
    ensures went { AllGo F.content F.faults F.lent
        (λ spawner. told_by (S.children spawner) (S.asked spawner) (S.failed spawner))
        (λ dialer. told (D.links dialer) (D.asked dialer) (D.failed dialer))
        C.moments (is_refused plan.old) 0 (jobs_of places.entry.items)
        (jobs_of result.places.items) }
    ensures all { result.all ≡ true → RefusesNone plan.old (length places.entry.items) }
    ensures one { result.all ≡ false → RefusesOne plan.old (length places.entry.items) }
    ensures refused { plan.new.refused ≡ plan.old.refused }
    ensures same { result.all ≡ true → plan.new ≡ plan.old }
    ensures count { result.all ≡ false → Rose plan.old.faults plan.new.faults }
{
    let Marked { places, all } = mark_all(plan, places);
    Worked {
        places: end_all(rt, places),
        all,
    }
}
