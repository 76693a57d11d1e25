//! A file fetched from a server by one GET, over HTTP/1.1 (RFC 9112). Sizes are in bytes.
#![tactic(auto)]

mod counted;
pub mod fetch;
pub mod laws;
pub mod taker;
