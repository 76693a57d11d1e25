//! Slices of an image that are read ahead of their turn, and checked against an index.
#![tactic(auto)]

pub mod ahead;
pub mod consumer;
pub mod entries;
pub mod plan;
pub mod subfolders;
pub mod view_reader;
