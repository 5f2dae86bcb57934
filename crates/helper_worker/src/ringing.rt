//! Waking the other workers.
use config_model::MAX_PEERS;
use outside::{Pause, Seat};

/// Ends the waits of all whom lines, or the daemon's end, may have given work: the slot's replier, each talker, and the
/// keeper.
pub fn ring_all<P: Pause>(pause: P, h: usize) {
    pause.at(Seat::Replier(h)).ring();
    pause.at(Seat::Keeper).ring();
    for n in 0..MAX_PEERS {
        pause.at(Seat::Talker(n)).ring();
    }
}
