//! Folders as stores of chunks, and what else lies in them.
#![tactic(auto)]

pub mod laws;
mod listing;
pub mod names;
pub mod store;
