//! Cutting an image into chunks by its content, and the index of an image.
#![tactic(auto)]

mod blocks;
mod entries;
pub mod image;
pub mod laws;
mod run;
mod slicer;
mod walk;
mod worker;
mod workers;

pub use chunk_ends::{cutter, sizes, window};
