//! What the words of the command line may be: commands, options, their values, locations, and the roles of words.
#![tactic(auto)]

pub mod command;
pub mod location;
pub mod option_table;
pub mod roles;
pub mod usage;
pub mod whole;
