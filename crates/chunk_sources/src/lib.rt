//! Where the bytes of a chunk come from: entries of the target that are right already, seeds, a cache and a chain of
//! stores.
#![tactic(auto)]

mod copy;
pub mod kit;
pub mod obtain;
pub mod seeding;
mod upstream;
