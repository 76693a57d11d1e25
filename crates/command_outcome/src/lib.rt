//! How a command ends, and the line that tells it.
#![tactic(auto)]

pub mod error_line;
pub mod line;
pub mod outcome;
