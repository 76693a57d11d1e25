//! Chunks of a folder over HTTP/1.1 (RFC 9112), for the side that answers: a shelf answers requests, and a connection
//! is served to its end. Everything is counted in bytes.
#![tactic(auto)]

pub mod chunk_file;
pub mod laws;
pub mod serve;
pub mod shelf;
pub mod shelf_service;
pub mod state;
