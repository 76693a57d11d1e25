//! The stores of an extraction, by the words that name them.

use command_words::command::Groups;

/// Stores in groups, and how often a call on one that fails is made again.
#[derive(Drop)]
pub struct Stores {
    pub groups: Groups,
    pub retries: u32,
}
