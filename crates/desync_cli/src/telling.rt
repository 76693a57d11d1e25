//! What is told of how a command ended, for which room is taken before the command begins. Sizes are in bytes.

ghost use Rattle.std.specs.Prelude.{◌≡◌, [], ℕ, ◌+◌, ◌<◌, ◌≤◌, ◌⊎◌, length, map, slice_index_or, string_bytes};
ghost use Rattle.std.specs.Prelude.{IfOk, OnOk};
ghost use Rattle.command_outcome.specs.ErrorLines.{error_line_of};
ghost use Rattle.command_outcome.specs.Lines.{FitsIn};
ghost use Rattle.command_worlds.specs.Steps.{outcome_of};
ghost use Rattle.desync_cli.specs.Lines.{TakesLine};

use command_outcome::error_line::{LINE_ROOM, put_error_line, put_no_memory};
use command_outcome::line::Line;
use command_outcome::outcome::Outcome;
use command_words::roles::word;
use dsy_base::fault::{IoFault, Memory};
use dsy_base::sink::Sink;
use std::alloc::Global;

// How many bytes `.tmp-desync` has, which stands behind OUT in the name of its temporary file.
const TEMPORARY: usize = 11;

/// The length of the longest word.
pub fn longest(words: &[String]) -> usize
    ensures { (i : ℕ) → i < length words.now → length (slice_index_or (map string_bytes words.now) i []) ≤ result }
{
    let mut longest = 0;
    'words: for i in 0..words.len() {
        let length = word(words, i).len();
        if length > longest {
            longest = length;
        }
    }
    longest
}

/// Room for each line that tells a name of words that are no longer than this, and the same in the sink.
pub fn take_line<E: Sink>(alloc: Global, longest: usize, err: &mut E) -> Result<Line, Memory>
    ensures empty { IfOk result (λ l. l.text ≡ []) }
    ensures room { IfOk result (λ l. longest + 267 ≤ l.room) }
    ensures fits { OnOk result (longest + 267 ≤ E.room err.new) }
    ensures kept { E.output err.new ≡ E.output err.old }
{
    let Some(room) = longest.checked_add(LINE_ROOM + TEMPORARY) else {
        return Err(Memory);
    };
    let line = Line::with_room(alloc, room)?;
    err.reserve(room)?;
    Ok(line)
}

/// Tells that there was no room for a line. What the sink makes of that changes nothing.
pub fn tell_no_room<E: Sink>(err: &mut E)
    ensures line { TakesLine (error_line_of Outcome.Memory) (E.output err.old) (E.output err.new)
        ⊎ ((E.output err.new).taken ≡ (E.output err.old).taken) }
{
    match put_no_memory(err) {
        Ok(()) => {}
        Err(IoFault::Failed) => {}
        Err(IoFault::Memory) => {}
    }
}

/// Tells how the command ended, in the room that was taken. What the sink makes of that changes nothing.
pub fn tell<E: Sink>(line: &mut Line, answer: &Result<(), Outcome>, err: &mut E)
    requires empty { line.old.text ≡ [] }
    requires fits { FitsIn (outcome_of answer.now) line.old.room (E.room err.old) }
    ensures line { TakesLine (error_line_of (outcome_of answer.now)) (E.output err.old) (E.output err.new) }
{
    let Err(outcome) = answer else {
        return;
    };
    match put_error_line(line, outcome, err) {
        Ok(()) => {}
        Err(IoFault::Failed) => {}
        Err(IoFault::Memory) => {}
    }
}
