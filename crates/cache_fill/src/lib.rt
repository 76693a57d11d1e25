//! Caches that are filled by an index, with chunks that further workers get ahead.
#![tactic(auto)]

mod ending;
mod entry;
pub mod fill;
mod filling;
mod hiring;
mod lacking;
mod want_reader;
