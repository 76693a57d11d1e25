//! Workers make a surveyed target right side by side, each with a kit of its own; then the first of them makes a second
//! pass.
#![tactic(auto)]

pub mod assembled;
mod counting;
mod finish;
pub mod lanes;
mod shared;
pub mod together;
mod workers;
