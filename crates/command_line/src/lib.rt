//! The words of the command line: what they say, or the first fault in them and its place.
#![tactic(auto)]

mod checked_words;
mod command_line;
mod judge;
pub mod laws;
mod locations;
mod values;
mod word_values;

pub use command_line::read_words;
