//! Connections of the operating system.
#![tactic(auto)]

mod pace;
mod paced_stream;
pub mod real_dial;
pub mod real_link;
pub mod real_listen;
