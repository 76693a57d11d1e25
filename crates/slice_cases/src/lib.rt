//! Tests of an image that is held against an index, and chopped, by several views of it.
#![tactic(auto)]

#[cfg(test)]
mod check_tests;
#[cfg(test)]
mod chop_tests;
#[cfg(test)]
mod compare;
pub mod gate;
#[cfg(test)]
mod images;
