//! The tests of texts: what is asked and answered over HTTP, by a store that asks and a shelf that answers; and the
//! words of the command line, those that tell how a command ended, and those of the help.
#![tactic(auto)]

#[cfg(test)]
mod compare;
#[cfg(test)]
mod gate_tests;
#[cfg(test)]
mod help_tests;
#[cfg(test)]
mod line_tests;
#[cfg(test)]
mod outcome_tests;
#[cfg(test)]
mod pieces;
#[cfg(test)]
mod place_tests;
#[cfg(test)]
mod proxy_line_tests;
#[cfg(test)]
mod read_tests;
#[cfg(test)]
mod shelf_tests;
#[cfg(test)]
mod wire_tests;
