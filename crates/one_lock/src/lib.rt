//! Locks of which each holder holds one at a time.
#![tactic(auto)]

pub mod hand;
