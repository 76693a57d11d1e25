//! A server of chunks as a store, over HTTP/1.1 (RFC 9112).
#![tactic(auto)]

pub mod body;
pub mod exchange;
pub mod fault;
pub mod laws;
pub mod receiving;
pub mod store;
