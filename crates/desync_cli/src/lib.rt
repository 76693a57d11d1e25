//! What the words say is done, over files and folders as traits.
#![tactic(auto)]

pub mod in_memory;
pub mod run;
mod telling;
mod words;
