//! Chunks of a cache and of the stores behind it over HTTP/1.1 (RFC 9112), for the side that answers: a chunk that the
//! cache doesn't give is obtained from the stores, and added to the cache. Everything is counted in bytes.
#![tactic(auto)]

pub mod connection;
mod fetch;
pub mod laws;
pub mod proxy_service;
pub mod state;
pub mod upstream;
