//! Stores of chunks in memory whose calls are refused as a test states.
#![tactic(auto)]

pub mod scripted_store;
