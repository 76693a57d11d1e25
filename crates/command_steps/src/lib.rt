//! The steps that commands share. Each gives what the next ones need, or the outcome that ends the command.
#![tactic(auto)]

pub mod any_store;
pub mod cache;
pub mod input_files;
pub mod seeds;
pub mod sources;
mod stores;
pub mod taken_stores;
