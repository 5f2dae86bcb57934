//! A neighbour slot with those whom it hears.

use config_model::Names;
use peer_book::PeerSlot;

/// A neighbour slot, and the names of the processes that its neighbour hears, in the file's order. A vacant slot hears
/// none.
#[derive(Drop)]
pub struct Peering {
    pub(crate) slot: PeerSlot,
    pub(crate) names: Names,
}
