//! Checked words, each with its role. Words are counted from 0, the first word after the command.

ghost use Rattle.std.specs.Prelude.{◌≡◌, length, map, string_bytes, IfOk};
ghost use Rattle.command_words.specs.Roles.{by_role, times_of_role, words_as, word_as};

use command_words::command::Names;
use command_words::roles::{Role, count_of, word_as};
use dsy_base::name::Name;
use std::alloc::{AllocError, Global};
use std::marker::Model;

/// Words after a command, each with its role.
#[derive(Drop)]
pub struct CheckedWords<'a> {
    roles: &'a [Role],
    words: &'a [String],
}

impl<'a> Model for CheckedWords<'a> {
    ghost use Rattle.std.specs.Prelude.{◌≡◌, length, map, string_bytes};
    ghost use Rattle.command_words.specs.Roles.{WordsByRole, by_role};

    ghost Value = { WordsByRole };

    ghost view = { λ p. by_role p.roles.now (map string_bytes p.words.now) };

    ghost invariant = { λ p. length p.roles.now ≡ length p.words.now };
}

impl<'a> CheckedWords<'a> {
    pub fn of(roles: &'a [Role], words: &'a [String]) -> CheckedWords<'a>
        requires { length roles.now ≡ length words.now }
        ensures { result ≡ by_role roles.now (map string_bytes words.now) }
    {
        CheckedWords { roles, words }
    }

    /// The roles of the words.
    pub fn roles(&self) -> &'a [Role]
        ensures value { result.now ≡ self.now.roles }
        ensures size { length result.now ≡ length self.now.words }
    {
        self.roles
    }

    /// How many words have the role.
    pub fn count_of(&self, role: Role) -> usize
        ensures value { result ≡ times_of_role role self.now.roles }
        ensures size { result ≡ length (words_as role self.now.roles self.now.words) }
    {
        count_of(role, self.roles)
    }

    /// The word at a place among those of the role, from 0, or the empty word.
    pub fn word_as(&self, role: Role, place: usize) -> &'a str
        ensures { result.now ≡ word_as role place self.now.roles self.now.words }
    {
        word_as(role, place, self.roles, self.words)
    }

    /// The words of the role, in order.
    pub fn names_as(&self, alloc: Global, role: Role) -> Result<Names, AllocError>
        ensures { IfOk result (λ n. n ≡ words_as role self.now.roles self.now.words) }
    {
        let mut names = Vec::new(alloc);
        for i in 0..self.count_of(role) {
            names.push(Name::of(alloc, self.word_as(role, i))?)?;
        }
        Ok(Names::of(names))
    }
}
