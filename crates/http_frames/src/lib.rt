//! How a message of HTTP/1.1 (RFC 9112) is framed: where its head ends, and how far the body behind it goes, which is
//! read in pieces. Nothing is received here.
#![tactic(auto)]

pub mod body;
pub mod fault;
pub mod head;
pub mod laws;
mod progress;
pub mod reader;
