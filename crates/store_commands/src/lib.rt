//! The commands that check and prune stores, and that check an image, a file each.
#![tactic(auto)]

pub mod info;
mod looks;
pub mod prune;
pub mod verify;
pub mod verify_index;
