//! The outside world in memory: views, targets, folders, files and sinks whose calls never fail. They refuse only where
//! nothing stands under a name, a file is longer than the buffer, or there is no memory.
#![tactic(auto)]

pub mod sure_bytes;
pub mod sure_files;
pub mod sure_folder;
pub mod sure_sink;
