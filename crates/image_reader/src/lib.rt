//! Ranges of an image that isn't assembled: the chunks come from stores, and a few of them are kept.
#![tactic(auto)]

pub mod cover;
mod kept;
pub mod laws;
pub mod reader;
mod reading;
pub mod refused;
pub mod want;
