//! A folder of chunks that threads share: a shelf behind a lock, and a thread for each connection that comes.
//! Connections are counted from 0.
#![tactic(auto)]

pub mod door;
mod ended;
mod gathering;
mod kept;
pub mod serve_all;
pub mod serve_folder;
pub mod shared_shelf;
mod tally;
