//! Folders whose type names what they began with, for what several threads share.
#![tactic(auto)]

pub mod named_folder;
