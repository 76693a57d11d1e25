//! The command that the words are.

ghost use Rattle.std.specs.Prelude.{◌≡◌, Some, IfOk, IfErr, map, string_bytes};
ghost use Rattle.command_words.specs.Limits.{Fits};
ghost use Rattle.desync_cli.specs.Commands.{NoCommand, command_of};

use command_line::read_words;
use command_outcome::outcome::Outcome;
use command_words::command::Command;
use command_words::usage::WordsFault;
use std::alloc::Global;

/// Reads the words.
pub fn read_command(alloc: Global, words: &[String]) -> Result<Command, Outcome>
    ensures ok { IfOk result (λ c. command_of (map string_bytes words.now) ≡ Some c) }
    ensures fits { IfOk result Fits }
    ensures err { IfErr result (NoCommand (map string_bytes words.now)) }
{
    match read_words(alloc, words) {
        Ok(command) => Ok(command),
        Err(WordsFault::Usage { place, why }) => Err(Outcome::Usage { place, why }),
        Err(WordsFault::Memory) => Err(Outcome::Memory),
    }
}
