//! Taking the jobs apart.
ghost use Rattle.std.specs.Prelude.{
  ◌≡◌,
  ◌<◌,
  ◌≤◌,
  ◌+◌,
  [],
  ◌∷◌,
  IfNone,
  IfSome,
  OnSome,
  length,
  reverse,
  vec_capacity,
};
ghost use Rattle.crew.specs.Jobs.Job.{Replies};
ghost use Rattle.crew.specs.Views.{jobs_of};
ghost use Rattle.daemon.specs.Laid.{AreWhole, Gains, HasRoom, files_of};
ghost use Rattle.daemon.specs.Making.{IsReplierFirst, PassMore, Returns};

use crate::pairs::put_slot;
use crate::stock::Stock;
use crate::talkers::put_parts;
use book_gate::GateName;
use control_worker::{Keeper, KeeperParts};
use crew::{Place, Worker};
use helper_worker::{Replier, take_apart};
use outside::{Clock, Dialer, Ear, Files, Pause, Spawner};

// Turns the order round.
pub(crate) fn turn_round<T>(items: &mut Vec<T>)
    ensures { items.new.items ≡ reverse items.old.items }
{
    items.reverse();
}

// Puts what a keeper was made of back, but for the files.
fn put_keeper<F: Files + Drop, S, D, E, P: Pause + Drop>(
    keeper: Keeper<'_, F, P>,
    stock: &mut Stock<S, D, E>,
) -> F
    requires pass { length stock.old.passes.items < vec_capacity stock.old.passes }
    ensures more { PassMore stock.old keeper.entry.pass stock.new }
    ensures files { result ≡ keeper.entry.files }
{
    let KeeperParts { files, pass } = keeper.apart();
    stock.passes.push_reserved(pass);
    files
}

// The replier that is the last of places.
fn pop_replier<
    'g,
    F: Files + Drop,
    S: Spawner + Drop,
    D: Dialer + Drop,
    E: Ear + Drop,
    C: Clock + Drop,
    P: Pause + Drop,
    N: GateName,
>(places: &mut Vec<Place<Worker<'g, F, S, D, E, C, P, N>>>) -> Replier<'g, S, P, N>
    requires { IsReplierFirst (reverse (jobs_of places.old.items)) }
    ensures first { reverse (jobs_of places.old.items)
        ≡ Replies result.h result.last result.pass ∷ reverse (jobs_of places.new.items) }
    ensures less { length places.new.items ≤ length places.old.items }
{
    let Some(place) = places.pop() else {
        unreachable!()
    };
    match place.worker {
        Worker::Replying(replier) => replier,
        _ => unreachable!(),
    }
}

// Puts what the job was made of back that is the last of places, and with a reader that of its replier, the last but
// one. The keeper's files come back.
fn put_next<
    'g,
    F: Files + Drop,
    S: Spawner + Drop,
    D: Dialer + Drop,
    E: Ear + Drop,
    C: Clock + Drop,
    P: Pause + Drop,
    N: GateName,
>(places: &mut Vec<Place<Worker<'g, F, S, D, E, C, P, N>>>, stock: &mut Stock<S, D, E>) -> Option<F>
    requires whole { AreWhole (reverse (jobs_of places.old.items)) }
    requires room { HasRoom stock.old (reverse (jobs_of places.old.items)) }
    ensures files { IfSome result (λ files. files_of (reverse (jobs_of places.old.items))
        ≡ files ∷ []) }
    ensures back { OnSome result (Gains stock.old (reverse (jobs_of places.old.items)) stock.new) }
    ensures returns { IfNone result (Returns stock.old (reverse (jobs_of places.old.items))
        stock.new (reverse (jobs_of places.new.items))) }
    ensures less { length places.new.items < length places.old.items }
{
    let Some(place) = places.pop() else {
        unreachable!()
    };
    match place.worker {
        Worker::Keeping(keeper) => Some(put_keeper(keeper, stock)),
        Worker::Talking(talker) => {
            put_parts(talker.apart(), stock);
            None
        }
        Worker::Reading(reader) => {
            let replier = pop_replier(places);
            put_slot(take_apart(reader, replier), stock);
            None
        }
        Worker::Replying(_) => unreachable!(),
    }
}

/// Takes the jobs apart, the first first, whether they have ended or were never run: what they were made of is in the
/// stock again, behind what was in it, and the keeper's files come back.
///
/// Each reader stands right before its replier, and the keeper is the last.
pub fn take_all_apart<
    'g,
    F: Files + Drop,
    S: Spawner + Drop,
    D: Dialer + Drop,
    E: Ear + Drop,
    C: Clock + Drop,
    P: Pause + Drop,
    N: GateName,
>(mut places: Vec<Place<Worker<'g, F, S, D, E, C, P, N>>>, stock: &mut Stock<S, D, E>) -> F
    requires whole { AreWhole (jobs_of places.items) }
    requires room { HasRoom stock.old (jobs_of places.items) }
    ensures files { files_of (jobs_of places.entry.items) ≡ result ∷ [] }
    ensures back { Gains stock.old (jobs_of places.entry.items) stock.new }
{
    turn_round(&mut places);
    'jobs: loop {
        if let Some(files) = put_next(&mut places, stock) {
            return files;
        }
    }
}
