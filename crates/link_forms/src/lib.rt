//! Connections in memory, and a dialer and a listener over them, whose calls fail as a test states.
#![tactic(auto)]

pub mod mem_dial;
pub mod mem_link;
pub mod mem_listen;
pub mod open_link;
