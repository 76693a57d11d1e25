//! An image held against an index.
#![tactic(auto)]

pub mod check;
mod checking;
