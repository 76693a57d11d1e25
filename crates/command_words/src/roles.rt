//! What each word of a command is. Words are counted from 0, the first word after the command.

ghost use Rattle.std.specs.Prelude.{◌≡◌, ◌<◌, ℕ, List, [], length, map, string_bytes, slice_index_or, IfOk, IfSome};
ghost use Rattle.command_words.specs.Roles.{option_role, spelled_role, opens, awaited, role_of, role_number};
ghost use Rattle.command_words.specs.Roles.{times_of_role, place_of_role, is_given, words_as, word_as};

use crate::option_table::{CommandKind, OptionKind, option_named};

/// What a word is.
#[derive(Clone, Copy, Debug, Drop)]
pub enum Role {
    /// The `--` that ends the options.
    Dashes,
    /// It begins with `-` and is no option of the command.
    Unknown,
    Operand,
    Given(OptionKind),
    /// The value of an option.
    Value(OptionKind),
}

/// The word at a place.
#[tactic(auto, using(crate::proofs::Lists::word_is))]
pub fn word(words: &[String], i: usize) -> &str
    requires { i < length words.now }
    ensures { result.now ≡ slice_index_or (map string_bytes words.now) i [] }
{
    words[i].as_str()
}

impl Role {
    /// A number of its own.
    pub fn number(self) -> u8
        ensures { result ≡ role_number self }
    {
        match self {
            Role::Dashes => 0,
            Role::Unknown => 1,
            Role::Operand => 2,
            Role::Given(option) => 3 + 2 * option.number(),
            Role::Value(option) => 4 + 2 * option.number(),
        }
    }
}

// What a word is that begins with `-`, by the option that it spells.
fn option_role(option: Option<OptionKind>) -> Role
    ensures { result ≡ option_role option }
{
    match option {
        Some(option) => Role::Given(option),
        None => Role::Unknown,
    }
}

// What the word is where it may be an option.
fn spelled_role(kind: CommandKind, word: &str) -> Role
    ensures { result ≡ spelled_role kind word.now }
{
    if word == "--" {
        return Role::Dashes;
    }
    if !word.as_bytes().starts_with(b"-") {
        return Role::Operand;
    }
    option_role(option_named(kind, word))
}

// The option of the role, where its value is the next word.
fn opens(role: Role) -> Option<OptionKind>
    ensures { result ≡ opens role }
{
    match role {
        Role::Given(option) if option.takes_value() => Some(option),
        _ => None,
    }
}

/// The option whose value is to come after words of these roles.
pub fn awaited(roles: &[Role]) -> Option<OptionKind>
    ensures { result ≡ awaited roles.now }
{
    match roles.last() {
        Some(role) => opens(*role),
        None => None,
    }
}

/// What the word is after words of these roles.
pub fn role_of(kind: CommandKind, before: &[Role], word: &str) -> Role
    ensures { result ≡ role_of kind before.now word.now }
{
    if let Some(option) = awaited(before) {
        return Role::Value(option);
    }
    if count_of(Role::Dashes, before) > 0 {
        return Role::Operand;
    }
    spelled_role(kind, word)
}

/// How many words have the role.
pub fn count_of(role: Role, roles: &[Role]) -> usize
    ensures { result ≡ times_of_role role roles.now }
{
    let number = role.number();
    roles
        .iter()
        .filter(|other| other.number() == number)
        .count()
}

/// Whether the option stands among words of these roles.
pub fn is_given(option: OptionKind, roles: &[Role]) -> bool
    ensures { result ≡ is_given option roles.now }
{
    count_of(Role::Given(option), roles) > 0
}

/// The place of the first word of the role.
pub fn place_of(role: Role, roles: &[Role]) -> Option<usize>
    ensures value { result ≡ place_of_role role roles.now }
    ensures inside { IfSome result (λ i. i < length roles.now) }
{
    let number = role.number();
    roles.iter().position(|other| other.number() == number)
}

/// The word at a place among those of the role, from 0, or the empty word.
#[tactic(auto, using(crate::proofs::Lists::word_taken, crate::proofs::Lists::words_none))]
pub fn word_as<'a>(role: Role, place: usize, roles: &[Role], words: &'a [String]) -> &'a str
    requires { length roles.now ≡ length words.now }
    ensures { result.now ≡ word_as role place roles.now (map string_bytes words.now) }
{
    let number = role.number();
    let mut left = place;
    for i in 0..words.len() {
        if roles[i].number() == number {
            if left == 0 {
                return word(words, i);
            }
            left -= 1;
        }
    }
    ""
}
