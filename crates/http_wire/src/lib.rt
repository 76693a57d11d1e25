//! The heads of messages of HTTP/1.1 (RFC 9112). For the side that asks the head of an ask is written, and that of the
//! reply to it is read. For the side that answers the head of a request is read, and that of the reply written. Nothing
//! is sent or received here.
#![tactic(auto)]

pub mod ask;
mod framing;
pub mod index_request;
pub mod index_target;
mod judging;
pub mod reply;
pub mod reply_text;
pub mod request;
pub mod target;
mod words;
