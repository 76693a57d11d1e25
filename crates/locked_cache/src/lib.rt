//! A cache that several workers ask and fill: a shelf behind a lock, and a door to it for each worker.
#![tactic(auto)]

pub mod door;
mod stocked;
