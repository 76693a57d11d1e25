//! The world as commands see it, the steps that lead from one world to the next, and what printing a text answers.
#![tactic(auto)]

pub mod printing;
