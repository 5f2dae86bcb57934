//! Tests of the daemon's book by stories: configurations and lines as texts, sessions and reloads, and what each event
//! is answered.
//!
//! It stands on book_core and on the readers of lines and of configurations, which book_core itself doesn't use. It has
//! no item but its tests: each plays a table of events, from the top to the bottom, on a book of its own.
#![tactic(auto)]

#[cfg(test)]
mod tests;
