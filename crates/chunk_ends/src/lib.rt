//! Where the chunks of an image end, by its content.
#![tactic(auto)]

mod closing;
pub mod cutter;
mod rolling;
mod seam;
pub mod sizes;
mod table;
#[cfg(test)]
mod tests;
pub mod window;
