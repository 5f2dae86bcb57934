//! Any number of passes of one gate: split off one pass, joined into it in any order, and the gate closed.
//!
//! The daemon splits its workers' passes off by `split_many` and joins them by `join_many`. It stands on the contracts
//! of `book_gate` and on its lemmas on lists. The rest is a law that no program calls, and its tests: `tally` is a
//! state that counts, `adding` makes its calls, `mail` hands glimpses from thread to thread, and `crew` opens a gate,
//! runs passes in threads and closes it; the total is proved to be what the threads added. Only tested is that the
//! calls return.
#![tactic(auto)]

mod adding;
mod crew;
mod mail;
mod many;
mod tally;
#[cfg(test)]
mod tests;

pub use many::{close_many, join_many, split_many};
