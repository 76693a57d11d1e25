//! The commands that cut an image: it is indexed and stored, or its chunks are stored by an index that is there.
#![tactic(auto)]

pub mod chop;
pub mod make;
