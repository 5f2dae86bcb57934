//! Writes UPDATE messages.
mod attribute;
mod frame;
mod key;
mod opening;
mod prefixes;
mod reached;
mod withdrawn;

pub use frame::LEN_LEN;
pub use opening::{open_gone, open_here, put_end_of_rib};
pub use prefixes::put_nlri;
pub use reached::put_reach;
pub use withdrawn::put_unreach;
