//! Tests of caches that are filled by an index, with any number of further workers.
#![tactic(auto)]

#[cfg(test)]
mod compare;
#[cfg(test)]
mod fill_tests;
#[cfg(test)]
mod further_tests;
#[cfg(test)]
mod gated_folder;
#[cfg(test)]
mod indexes;
