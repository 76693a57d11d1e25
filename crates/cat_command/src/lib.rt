//! The command that puts a range of an image on the output.
#![tactic(auto)]

pub mod cat;
mod putting;
mod range;
