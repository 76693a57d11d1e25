//! Storing an image: its index, and each of its chunks in a store.
#![tactic(auto)]

pub mod put_chunks;
mod spell;
mod store_entries;
pub mod store_image;
pub mod storing;
