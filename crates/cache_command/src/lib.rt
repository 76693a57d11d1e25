//! The command that fills a cache.
#![tactic(auto)]

pub mod cache;
mod filling;
