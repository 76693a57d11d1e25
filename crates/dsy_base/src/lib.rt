//! The outside world as the layers above see it: files, folders and sinks as traits.
#![tactic(auto)]

pub mod dial;
pub mod fault;
pub mod files;
pub mod folder;
pub mod image_files;
pub mod inner_folders;
pub mod link;
pub mod listen;
pub mod look;
pub mod name;
pub mod sink;
pub mod slots;
pub mod temporary;
pub mod view;
