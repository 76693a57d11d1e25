//! Items that one thread takes in order, while other threads read them ahead.
#![tactic(auto)]

pub mod claims;
pub mod consumer;
pub mod reader;
pub mod rounds;
