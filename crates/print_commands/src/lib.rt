//! The commands that only print, a file each.
#![tactic(auto)]

pub mod demo;
pub mod help;
pub mod list_chunks;
