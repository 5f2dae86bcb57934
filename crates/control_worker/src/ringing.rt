//! Waking the other workers.

use config_model::Slots;
use outside::{Pause, Seat};

/// Ends the waits of all other workers, so that each asks the book anew.
pub fn ring_all<P: Pause>(pause: P, slots: Slots) {
    ring_helpers(pause, slots.helpers);
    ring_neighbors(pause, slots.peers);
}

/// Ends the waits of all other workers where the daemon ends. Those of the helper slots are closed, so that none waits
/// on for a helper that doesn't read. Those of the neighbour slots aren't, since what they send last is still to
/// arrive.
pub fn end_waits<P: Pause>(pause: P, slots: Slots) {
    close_helpers(pause, slots.helpers);
    ring_neighbors(pause, slots.peers);
}

// Ends the waits of the workers of the helper slots, and those of their devices, for good.
fn close_helpers<P: Pause>(pause: P, helpers: usize) {
    for h in 0..helpers {
        pause.at(Seat::Reader(h)).close();
        pause.at(Seat::Replier(h)).close();
    }
}

// Ends the waits of the workers of the helper slots.
fn ring_helpers<P: Pause>(pause: P, helpers: usize) {
    for h in 0..helpers {
        pause.at(Seat::Reader(h)).ring();
        pause.at(Seat::Replier(h)).ring();
    }
}

// Ends the waits of the workers of the neighbour slots.
fn ring_neighbors<P: Pause>(pause: P, peers: usize) {
    for n in 0..peers {
        pause.at(Seat::Talker(n)).ring();
    }
}
