//! The outside world of the operating system: its files, folders, streams and connections behind the traits. They tell
//! contracts how often a call has failed, and nothing of what they hold.
#![tactic(auto)]

pub mod real_bytes;
pub mod real_files;
pub mod real_folder;
pub mod real_part;
pub mod real_sink;
