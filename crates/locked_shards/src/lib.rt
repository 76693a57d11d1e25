//! The entries of a target whose shards stand behind locks, as one of several workers sees them.
#![tactic(auto)]

pub mod locked;
