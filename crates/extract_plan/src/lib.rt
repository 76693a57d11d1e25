//! What an extraction needs: the chunks that an index lists, each once, and how the work is dealt to workers.
#![tactic(auto)]

mod group;
mod keyed;
mod link;
pub mod plan;
pub mod seed;
pub mod seeds;
pub mod shard;
