//! Judging the value of `-s`: a location, or a group of locations with `|` between. The stores of
//! all groups are counted together.

ghost use Rattle.std.specs.Prelude.{◌≡◌, ◌-◌, false, map};
ghost use Rattle.command_line.specs.Judging.{RefusesWords, store_refusal, parts_refusal, group_refusal};
ghost use Rattle.command_line.specs.Judging.{is_empty, location_refusal, stores_named};
ghost use Rattle.std.specs.List.{list_any};
ghost use Rattle.command_words.specs.Locations.{location_of, parts_of};

use crate::checked_words::CheckedWords;
use crate::judge::{Refusal, unless};
use command_words::command::Location;
use command_words::location::{NoLocation, count_parts, parts, read_location};
use command_words::option_table::{CommandKind, OptionKind};
use command_words::roles::Role;
use command_words::usage::UsageWhy;
use std::alloc::Global;

/// The greatest number of stores, over all groups.
const GREATEST_STORES: usize = 16;

// Judges a location.
fn judge_location(alloc: Global, needs_folder: bool, word: &str) -> Result<(), Refusal>
    ensures { RefusesWords (store_refusal needs_folder (location_of word.now)) result }
{
    match read_location(alloc, word) {
        Ok(Location::Folder(_)) => Ok(()),
        Ok(Location::Http { .. }) => unless(!needs_folder, UsageWhy::NeedsFolder),
        Err(NoLocation::Bad) => Err(Refusal::Why(UsageWhy::BadLocation)),
        Err(NoLocation::Memory) => Err(Refusal::Memory),
    }
}

// Judges the locations of a group, in order.
#[tactic(auto, using(crate::proofs::Stores::part_passes, crate::proofs::Stores::part_refused))]
fn judge_parts(alloc: Global, parts: &[&str]) -> Result<(), Refusal>
    ensures { RefusesWords (parts_refusal (map (λ p. p.now) parts.now)) result }
{
    for part in parts {
        judge_location(alloc, false, part)?;
    }
    Ok(())
}

// How many more stores may be named after these words.
#[tactic(auto, using(crate::proofs::Stores::room_left))]
fn room_after(before: &CheckedWords<'_>) -> usize
    ensures { result ≡ 16 - stores_named before.now }
{
    let role = Role::Value(OptionKind::Store);
    let mut left = GREATEST_STORES;
    for i in 0..before.count_of(role) {
        left = left.saturating_sub(count_parts(before.word_as(role, i)));
    }
    left
}

// Whether one of these is empty.
fn has_empty(parts: &[&str]) -> bool
    ensures { result ≡ list_any is_empty (map (λ p. p.now) parts.now) }
{
    for part in parts {
        if part.is_empty() {
            return true;
        }
    }
    false
}

// Judges a group of locations.
#[tactic(auto, using(crate::proofs::Stores::many_of, crate::proofs::Stores::empty_of, crate::proofs::Stores::judges))]
fn judge_group(alloc: Global, before: &CheckedWords<'_>, word: &str) -> Result<(), Refusal>
    ensures { RefusesWords (group_refusal (stores_named before.now) (parts_of word.now)) result }
{
    let Ok(parts) = parts(alloc, word) else {
        return Err(Refusal::Memory);
    };
    if parts.len() > room_after(before) {
        return Err(Refusal::Why(UsageWhy::TooMany));
    }
    if has_empty(parts.as_slice()) {
        return Err(Refusal::Why(UsageWhy::Empty));
    }
    judge_parts(alloc, parts.as_slice())
}

/// Judges the value of `-s`, after these words.
pub fn judge_store(
    alloc: Global,
    kind: CommandKind,
    before: &CheckedWords<'_>,
    word: &str,
) -> Result<(), Refusal>
    ensures { RefusesWords (location_refusal kind (stores_named before.now) word.now) result }
{
    if kind.takes_groups() {
        return judge_group(alloc, before, word);
    }
    if word.is_empty() {
        return Err(Refusal::Why(UsageWhy::Empty));
    }
    judge_location(alloc, kind.takes().needs_folder, word)
}
