//! An image that a number makes, cut, stored and extracted in memory.
#![tactic(auto)]

pub mod bytes;
mod chunk_map;
mod compare;
pub mod cut;
pub mod demo;
pub mod fault;
pub mod figures;
mod kits;
pub mod laws;
mod make;
mod plan;
mod shared_bytes;
mod stock;
