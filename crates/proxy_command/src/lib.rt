//! The command that serves a cache before stores over connections.
#![tactic(auto)]

mod folder_chains;
pub mod proxy;
mod reach;
mod serve_folders;
mod serving;
