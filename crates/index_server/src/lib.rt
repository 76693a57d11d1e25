//! Indexes over HTTP/1.1 (RFC 9112). A server answers requests for those of a folder one by one, and serves a
//! connection to its end. A client fetches one by one GET. Everything is counted in bytes.
#![tactic(auto)]

pub mod fetch_index;
mod file_taker;
mod index_file;
pub mod index_service;
pub mod laws;
pub mod serve_index;
pub mod state;
