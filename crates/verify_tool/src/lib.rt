//! What an index says, told and counted. And folder stores, pruned.
#![tactic(auto)]

pub mod count;
pub mod info;
pub mod list;
pub mod prune;
