//! Which ranges of a target are right before any write, and what became of each entry of an index.
#![tactic(auto)]

pub mod fate;
mod fed_zeros;
mod kind_hasher;
pub mod look;
pub mod report;
pub mod zeros;
