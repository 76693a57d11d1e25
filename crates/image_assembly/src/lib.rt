//! Images are assembled: a target is prepared, and then made the image of an index, from what is right in it already,
//! seeds, a cache and stores.
#![tactic(auto)]

pub mod assemble;
pub mod fault;
pub mod prepare;
pub mod room;
