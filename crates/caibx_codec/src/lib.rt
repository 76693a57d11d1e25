//! Index files of casync (`caibx`): what they list, how they are read and how they are written.
#![tactic(auto)]

pub mod check;
pub mod index;
pub mod laws;
mod partial;
pub mod reader;
pub mod reading;
pub mod writing;
