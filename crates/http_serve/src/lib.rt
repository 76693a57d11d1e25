//! Connections of HTTP/1.1 (RFC 9112) served to their end, for the side that answers, whatever is asked for. Everything
//! is counted in bytes.
#![tactic(auto)]

pub mod connection;
mod receiving;
mod replying;
pub mod service;
mod waiting;
