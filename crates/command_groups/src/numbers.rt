//! Numbers of stores over all groups, from 0.

ghost use Rattle.std.specs.Prelude.{[], ◌≡◌, ◌≤◌, length, slice_index_or};
ghost use Rattle.command_groups.specs.Groups.{first_store, stores_of};
ghost use Rattle.command_groups.specs.Numbers.{answer_of_stores, outcome_of_stores, store_numbered};

use chunk_store::store::Giver;
use command_outcome::outcome::Outcome;
use command_words::command::Locations;

/// The number of the first store of a group, over all groups.
pub fn first_store(words: &[Locations], group: usize) -> usize
    requires few { length (stores_of words.now) ≤ 16 }
    ensures value { result ≡ first_store words.now group }
    ensures few { result ≤ length (stores_of words.now) }
{
    match words.split_first() {
        Some((first, rest)) if group > 0 => first.as_slice().len() + first_store(rest, group - 1),
        _ => 0,
    }
}

// How many stores a group has, and 0 where there is no such group.
fn group_size(words: &[Locations], group: usize) -> usize
    ensures value { result ≡ length (slice_index_or words.now group []) }
    ensures few { result ≤ length (stores_of words.now) }
{
    match words.split_first() {
        Some((first, rest)) => {
            if group == 0 {
                first.as_slice().len()
            } else {
                group_size(rest, group - 1)
            }
        }
        None => 0,
    }
}

// The store of a group, by its number over all groups.
fn store_numbered(words: &[Locations], store: Giver) -> Giver
    requires few { length (stores_of words.now) ≤ 16 }
    ensures value { result ≡ store_numbered words.now store }
{
    let group = store.number as usize;
    let member = store.member.min(group_size(words, group));
    Giver {
        number: (first_store(words, group) + member) as u32,
        member: 0,
    }
}

// Puts the number of a store in the place of that of its group.
fn number_store(words: &[Locations], outcome: Outcome) -> Outcome
    requires few { length (stores_of words.now) ≤ 16 }
    ensures value { result ≡ outcome_of_stores words.now outcome }
{
    match outcome {
        Outcome::StoreFault { store } => {
            let store = first_store(words, store as usize) as u32;
            Outcome::StoreFault { store }
        }
        Outcome::Damaged {
            entry,
            id,
            store,
            shows,
        } => {
            let store = store_numbered(words, store);
            Outcome::Damaged {
                entry,
                id,
                store,
                shows,
            }
        }
        other => other,
    }
}

/// The answer of a command whose groups of stores have these words. In it a store's number stands in the place of a
/// group's: that of the first store, where the group failed, and that of the store that gave other bytes.
pub fn numbered(words: &[Locations], answer: Result<(), Outcome>) -> Result<(), Outcome>
    requires few { length (stores_of words.now) ≤ 16 }
    ensures value { result ≡ answer_of_stores words.now answer }
{
    match answer {
        Ok(()) => Ok(()),
        Err(outcome) => Err(number_store(words, outcome)),
    }
}
