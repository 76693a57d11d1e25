//! The views of an image: as many as there are workers.
#![tactic(auto)]

pub mod views;
