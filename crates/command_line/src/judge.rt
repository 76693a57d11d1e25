//! Judging the words of a command, from left to right. Words are counted from 0, the first word
//! after the command; places count the command too.

ghost use Rattle.std.specs.Prelude.{◌≡◌, ◌<◌, ◌+◌, ◌^◌, ℕ, List, [], length, map, string_bytes, Result, Ok, Err, Some};
ghost use Rattle.std.specs.Prelude.{None, IfOk};
ghost use Rattle.command_line.specs.Judging.{RefusesWords, AnswersBy, number_refusal, unless, is_empty, stores_named};
ghost use Rattle.command_line.specs.Judging.{name_refusal, value_refusal, index_refusal, named_refusal};
ghost use Rattle.command_line.specs.Judging.{name_operand_refusal, demo_operand_refusal, place_refusal};
ghost use Rattle.command_line.specs.Judging.{operand_refusal, refusal_of, fault_at, judged, folder_fault, whole_fault};
ghost use Rattle.command_words.specs.Locations.{index_place_of};
ghost use Rattle.command_words.specs.OptionTable.{takes_of, times_of};

use crate::checked_words::CheckedWords;
use crate::locations::judge_store;
use crate::values::{byte_count, digest, is_seed, listen, number, retries, sizes, workers};
use command_words::location::{NoLocation, is_index_url, names_folder, read_index_place};
use command_words::option_table::{CommandKind, OptionKind, Takes};
use command_words::roles::{Role, awaited, is_given, place_of, role_of, word};
use command_words::usage::{UsageWhy, WordsFault};
use command_words::whole::{first_surplus, why_not_whole};
use std::alloc::Global;

/// Why a word is refused.
#[derive(Clone, Copy, Debug, PartialEq, Eq)]
pub enum Refusal {
    Why(UsageWhy),
    Memory,
}

/// Refuses unless it is right.
pub fn unless(right: bool, why: UsageWhy) -> Result<(), Refusal>
    ensures { RefusesWords (unless right why) result }
{
    if right {
        Ok(())
    } else {
        Err(Refusal::Why(why))
    }
}

// Judges a name that may not be empty.
fn judge_name(empty: bool, right: bool, why: UsageWhy) -> Result<(), Refusal>
    ensures { RefusesWords (name_refusal empty right why) result }
{
    if empty {
        return Err(Refusal::Why(UsageWhy::Empty));
    }
    unless(right, why)
}

// Judges the value of an option, after these words.
fn judge_value(
    alloc: Global,
    kind: CommandKind,
    before: &CheckedWords<'_>,
    option: OptionKind,
    word: &str,
) -> Result<(), Refusal>
    ensures { RefusesWords (value_refusal kind (stores_named before.now) option word.now) result }
{
    let bytes = word.as_bytes();
    match option {
        OptionKind::Store => judge_store(alloc, kind, before, word),
        OptionKind::ChunkSize => unless(sizes(bytes).is_some(), UsageWhy::BadSizes),
        OptionKind::Concurrency => unless(workers(bytes).is_some(), UsageWhy::BadNumber),
        OptionKind::Cache => unless(!word.is_empty(), UsageWhy::Empty),
        OptionKind::Seed => judge_name(word.is_empty(), is_seed(word), UsageWhy::BadSeed),
        OptionKind::Listen => unless(listen(word).is_some(), UsageWhy::BadListen),
        OptionKind::Digest => unless(digest(word).is_some(), UsageWhy::BadDigest),
        OptionKind::Offset | OptionKind::Length => {
            unless(byte_count(word).is_some(), UsageWhy::BadNumber)
        }
        OptionKind::Retries => unless(retries(bytes).is_some(), UsageWhy::BadNumber),
        OptionKind::InPlace | OptionKind::Repair | OptionKind::Yes | OptionKind::Writable => Ok(()),
    }
}

/// The greatest size that `demo` makes, in bytes.
pub const GREATEST_DEMO: u64 = 536_870_912;

// Judges an operand that is a number.
fn judge_number(most: u64, word: &str) -> Result<(), Refusal>
    ensures { RefusesWords (number_refusal most word.now) result }
{
    let right = number(0, most, word.as_bytes()).is_some();
    judge_name(word.is_empty(), right, UsageWhy::BadNumber)
}

// Judges an operand of `demo` that has this many before it: a number and a size.
fn judge_demo_operand(before: usize, word: &str) -> Result<(), Refusal>
    ensures { RefusesWords (demo_operand_refusal before word.now) result }
{
    if before == 0 {
        return judge_number(u64::MAX, word);
    }
    if before == 1 {
        return judge_number(GREATEST_DEMO, word);
    }
    Err(Refusal::Why(UsageWhy::Operands))
}

// Judges the place of an index.
fn judge_place(alloc: Global, word: &str) -> Result<(), Refusal>
    ensures { RefusesWords (place_refusal (index_place_of word.now)) result }
{
    match read_index_place(alloc, word) {
        Ok(_) => Ok(()),
        Err(NoLocation::Bad) => Err(Refusal::Why(UsageWhy::BadLocation)),
        Err(NoLocation::Memory) => Err(Refusal::Memory),
    }
}

// Judges an index.
fn judge_index(alloc: Global, is_written: bool, word: &str) -> Result<(), Refusal>
    ensures { RefusesWords (index_refusal is_written word.now) result }
{
    if is_written {
        unless(!is_index_url(word), UsageWhy::BadLocation)
    } else {
        judge_place(alloc, word)
    }
}

// Judges one of the operands that a command takes, which has this many before it.
fn judge_named(alloc: Global, takes: Takes, before: usize, word: &str) -> Result<(), Refusal>
    ensures { RefusesWords (named_refusal takes before word.now) result }
{
    if before < takes.indexes {
        judge_index(alloc, takes.writes_index, word)
    } else {
        Ok(())
    }
}

// Judges an operand that is a name and has this many before it.
fn judge_name_operand(alloc: Global, takes: Takes, before: usize, word: &str) -> Result<(), Refusal>
    ensures { RefusesWords (name_operand_refusal takes before word.now) result }
{
    if word.is_empty() {
        return Err(Refusal::Why(UsageWhy::Empty));
    }
    if before < takes.operands.greatest {
        judge_named(alloc, takes, before, word)
    } else {
        Err(Refusal::Why(UsageWhy::Operands))
    }
}

// Judges an operand that has this many before it.
fn judge_operand(alloc: Global, kind: CommandKind, before: usize, word: &str) -> Result<(), Refusal>
    ensures { RefusesWords (operand_refusal kind before word.now) result }
{
    let takes = kind.takes();
    if takes.takes_numbers {
        judge_demo_operand(before, word)
    } else {
        judge_name_operand(alloc, takes, before, word)
    }
}

// Judges a word of a role, after these words.
fn judge_word(
    alloc: Global,
    kind: CommandKind,
    before: &CheckedWords<'_>,
    role: Role,
    word: &str,
) -> Result<(), Refusal>
    ensures { RefusesWords (refusal_of kind before.now role word.now) result }
{
    match role {
        Role::Dashes => Ok(()),
        Role::Unknown => Err(Refusal::Why(UsageWhy::UnknownOption)),
        Role::Operand => judge_operand(alloc, kind, before.count_of(Role::Operand), word),
        Role::Given(option) => {
            let right = before.count_of(Role::Given(option)) < kind.times_of(option).greatest;
            unless(right, UsageWhy::TooMany)
        }
        Role::Value(option) => judge_value(alloc, kind, before, option, word),
    }
}

// The fault of a refusal at a place.
fn fault_at(place: u64, refusal: Refusal) -> WordsFault
    ensures { result ≡ fault_at place refusal }
{
    match refusal {
        Refusal::Why(why) => WordsFault::Usage { place, why },
        Refusal::Memory => WordsFault::Memory,
    }
}

/// The roles of the words, where each has passed and no value is missing.
pub fn judged(alloc: Global, kind: CommandKind, words: &[String]) -> Result<Vec<Role>, WordsFault>
    requires { length words.now + 1 < 2 ^ 64 }
    ensures exactly { AnswersBy (λ v. v.items) (judged kind (map string_bytes words.now)) result }
    ensures size { IfOk result (λ v. length v.items ≡ length words.now) }
{
    let mut roles = Vec::new(alloc);
    for i in 0..words.len() {
        let word = word(words, i);
        let role = role_of(kind, roles.as_slice(), word);
        let before = CheckedWords::of(roles.as_slice(), &words[..i]);
        if let Err(refusal) = judge_word(alloc, kind, &before, role, word) {
            return Err(fault_at(i as u64 + 1, refusal));
        }
        if roles.push(role).is_err() {
            return Err(WordsFault::Memory);
        }
    }
    if awaited(roles.as_slice()).is_some() {
        return Err(WordsFault::Usage {
            place: words.len() as u64 + 1,
            why: UsageWhy::NoValue,
        });
    }
    Ok(roles)
}

// Why the one store isn't a folder, where it has to be: the command needs one, and there is no cache.
fn folder_fault(kind: CommandKind, words: &CheckedWords<'_>) -> Option<WordsFault>
    ensures { result ≡ folder_fault kind words.now }
{
    if !kind.takes().needs_folder || is_given(OptionKind::Cache, words.roles()) {
        return None;
    }
    if let Some(place) = first_surplus(words.roles()) {
        return Some(fault_at(place as u64 + 1, Refusal::Why(UsageWhy::TooMany)));
    }
    if names_folder(words.value(OptionKind::Store)) {
        return None;
    }
    let place = place_of(Role::Value(OptionKind::Store), words.roles())?;
    Some(fault_at(place as u64 + 1, Refusal::Why(UsageWhy::NeedsFolder)))
}

/// Why words that have passed are no whole command.
pub fn whole_fault(kind: CommandKind, words: &CheckedWords<'_>) -> Option<WordsFault>
    requires { length words.now.words + 1 < 2 ^ 64 }
    ensures { result ≡ whole_fault kind words.now }
{
    if let Some(fault) = folder_fault(kind, words) {
        return Some(fault);
    }
    let why = why_not_whole(kind, words.roles())?;
    Some(fault_at(words.roles().len() as u64 + 1, Refusal::Why(why)))
}
