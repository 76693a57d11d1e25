//! Tests of ranges that are read of an image which isn't assembled, and of groups of stores.
#![tactic(auto)]

#[cfg(test)]
mod compare;
#[cfg(test)]
mod group_tests;
#[cfg(test)]
mod images;
#[cfg(test)]
mod range_tests;
#[cfg(test)]
mod refusal_tests;
