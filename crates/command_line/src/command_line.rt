//! Reading the words of the command line, those after the program's name. A place is a word's, from
//! 0 for the command.

ghost use Rattle.std.specs.Prelude.{◌≡◌, ◌<◌, ◌+◌, ◌^◌, ℕ, List, length, map, string_bytes, codes, Err, IfOk};
ghost use Rattle.command_line.specs.CommandLine.{ReadsWords, FindsNoRoom, command_with, command_or_help, is_alone};
ghost use Rattle.command_line.specs.Judging.{AnswersBy};
ghost use Rattle.command_words.specs.Limits.{Fits};
ghost use Rattle.command_words.specs.OptionTable.{command_named};

use crate::checked_words::CheckedWords;
use crate::judge::{judged, whole_fault};
use command_words::command::Command;
use command_words::option_table::{CommandKind, command_named};
use command_words::roles::word;
use command_words::usage::{UsageWhy, WordsFault};
use std::alloc::Global;

// Whether the words are this one alone.
fn is_alone(words: &[String], only: &str) -> bool
    ensures { result ≡ is_alone (map string_bytes words.now) only.now }
{
    words.len() == 1 && word(words, 0) == only
}

// Reads the words after a command.
fn read_with(alloc: Global, kind: CommandKind, words: &[String]) -> Result<Command, WordsFault>
    requires { length words.now + 1 < 2 ^ 64 }
    ensures { AnswersBy (λ c. c) (command_with kind (map string_bytes words.now)) result }
{
    let roles = judged(alloc, kind, words)?;
    let checked = CheckedWords::of(roles.as_slice(), words);
    if let Some(fault) = whole_fault(kind, &checked) {
        return Err(fault);
    }
    checked
        .command_of(alloc, kind)
        .map_err(|_| WordsFault::Memory)
}

// Reads the words after the command that was named, if one was.
fn read_named(
    alloc: Global,
    kind: Option<CommandKind>,
    words: &[String],
) -> Result<Command, WordsFault>
    requires { length words.now + 1 < 2 ^ 64 }
    ensures { AnswersBy (λ c. c) (command_or_help kind (map string_bytes words.now)) result }
{
    let Some(kind) = kind else {
        return Err(WordsFault::Usage {
            place: 0,
            why: UsageWhy::UnknownCommand,
        });
    };
    if is_alone(words, "--help") {
        return Ok(Command::HelpOn(kind));
    }
    read_with(alloc, kind, words)
}

// The command that the words are.
fn read_line(alloc: Global, words: &[String]) -> Result<Command, WordsFault>
    ensures { ReadsWords (map string_bytes words.now) result }
{
    let Some((first, rest)) = words.split_first() else {
        return Err(WordsFault::Usage {
            place: 0,
            why: UsageWhy::NoCommand,
        });
    };
    if is_alone(words, "--help") {
        return Ok(Command::Help);
    }
    if is_alone(words, "--version") {
        return Ok(Command::Version);
    }
    read_named(alloc, command_named(first.as_str()), rest)
}

/// The command that the words are.
pub fn read_words(alloc: Global, words: &[String]) -> Result<Command, WordsFault>
    ensures exactly { ReadsWords (map string_bytes words.now) result }
    // A URL that finds no room is answered so, however much memory there is.
    ensures room { FindsNoRoom (map string_bytes words.now) → result ≡ Err WordsFault.Memory }
    ensures fits { IfOk result Fits }
{
    read_line(alloc, words)
}
