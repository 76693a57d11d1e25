//! Chunks: their ids, which are the digests of their bytes, and the stores that hold them.
#![tactic(auto)]

pub mod id;
pub mod laws;
pub mod mem_store;
pub mod path;
pub mod range;
pub mod shows;
pub mod store;
