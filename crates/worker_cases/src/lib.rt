//! Tests of targets in shards that several workers survey, and that two workers fill at the same time, and of a cache
//! that two workers ask and fill.
#![tactic(auto)]

#[cfg(test)]
mod cache_tests;
#[cfg(test)]
mod filling;
#[cfg(test)]
mod locked_tests;
pub mod meeting;
#[cfg(test)]
mod survey_tests;
