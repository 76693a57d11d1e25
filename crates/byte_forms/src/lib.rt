//! Bytes in memory that are read and written by place: views, targets and their parts, whose calls fail as a test
//! states.
#![tactic(auto)]

pub mod calls;
pub mod mem_part;
pub mod mem_target;
pub mod mem_view;
pub mod ranges;
