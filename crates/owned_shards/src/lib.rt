//! A target in shards: how several workers survey it, and how one who owns all shards reads, writes and joins them.
#![tactic(auto)]

pub mod frame;
mod lanes;
pub mod lock;
pub mod shards;
mod share;
pub mod survey;
