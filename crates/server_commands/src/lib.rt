//! The commands that serve what a folder holds over connections, a file each, and what they share.
#![tactic(auto)]

pub mod address;
pub mod chunks;
pub mod in_turn;
pub mod indexes;
