//! Stores that are meant to hold the same chunks, as one store: where one fails the next is asked.
#![tactic(auto)]

mod answer;
pub mod group;
pub mod laws;
mod turns;
