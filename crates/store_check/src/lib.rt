//! Folder stores whose chunk files are checked: damaged ones are told, and removed where that is asked for.
#![tactic(auto)]

mod file;
mod hiring;
pub mod reader;
pub mod verdicts;
pub mod verify;
mod verifying;
