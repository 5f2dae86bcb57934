//! Stories of one book each, and what a story is made of.
mod events;
mod files;
mod full;
mod gate;
mod helpers;
mod reloads;
mod routes;
mod sessions;
mod stage;
mod told;
