//! The fields of an index file: its numbers and limits, and how each word is judged.
#![tactic(auto)]

pub mod fault;
pub mod field;
pub mod format;
pub mod word;
