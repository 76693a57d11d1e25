//! Entries of an index that are dealt to several workers, who each ask for their own.
#![tactic(auto)]

pub mod dealing;
