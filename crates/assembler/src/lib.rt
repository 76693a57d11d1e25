//! What the survey of a target left open is made right in two passes, from what is right in it already, seeds, a cache
//! and stores.
#![tactic(auto)]

pub mod fault;
pub mod fill;
mod passes;
mod put;
pub mod retry;
pub mod run;
mod settle;
pub mod work;
