//! How the program is called: the texts of `--help`, `COMMAND --help` and `--version`.
#![tactic(auto)]

pub mod help;
pub mod texts;
