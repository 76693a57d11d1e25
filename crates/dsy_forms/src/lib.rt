//! The outside world in memory: folders, files and sinks whose calls fail as a test states.
#![tactic(auto)]

pub mod mem_files;
pub mod mem_folder;
pub mod mem_sink;
pub mod memory_files;
pub mod named_files;
pub mod no_folders;
pub mod slot_files;
