//! Stores in groups, for the commands: opened in order, given back, and numbered over all groups.
#![tactic(auto)]

pub mod chains;
pub mod groups;
pub mod numbers;
