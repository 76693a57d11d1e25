//! Indexes that commands are given by the names of files or by `http` URLs.
#![tactic(auto)]

pub mod load;
