//! The command that makes a file the image of an index.
#![tactic(auto)]

mod cache;
pub mod extract;
mod held;
mod kits;
pub mod stores;
