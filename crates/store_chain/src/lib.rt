//! Stores in order, of which the first that gives a chunk answers. Here a chunk's name is looked at on its way in.
#![tactic(auto)]

mod ask;
pub mod chain;
mod has;
pub mod query;
pub mod refused;
