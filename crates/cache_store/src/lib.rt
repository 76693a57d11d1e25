//! Folders of chunks that are asked before stores, and filled with what stores give.
#![tactic(auto)]

pub mod cache;
pub mod cached;
pub mod shelf;
