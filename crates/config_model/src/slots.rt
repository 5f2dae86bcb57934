//! How many sections a configuration may have.
ghost use Rattle.std.specs.Prelude.{◌≤◌};
ghost use Rattle.config_model.specs.Limits.{max_helpers, max_peers};

/// The most processes that a configuration has.
pub const MAX_HELPERS: usize = 16;

/// The most neighbours that a configuration has.
pub const MAX_PEERS: usize = 64;

/// How many processes and neighbours a configuration is read for: at most [`MAX_HELPERS`] and [`MAX_PEERS`].
#[derive(Clone, Copy, Debug)]
pub struct Slots {
    pub helpers: usize,
    pub peers: usize,
    pub ghost few_helpers: { helpers ≤ max_helpers },
    pub ghost few_peers: { peers ≤ max_peers },
}
