//! The counter, and files with what they say.
mod counting;
mod files;
mod refused;
mod watches;
