//! Chopping an image: each chunk that an index lists is put into a store.
#![tactic(auto)]

pub mod chop;
mod chopping;
