//! Shards of a target that know what became of their entries, and the core machine of which their calls are steps.
#![tactic(auto)]

mod entries;
pub mod laws;
pub mod ledger;
pub mod run;
pub mod shard;
pub mod unread;
