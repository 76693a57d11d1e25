//! Asking the stores of a group in turn, until one doesn't fail.

ghost use Rattle.std.specs.Prelude.{◌≡◌, ◌≤◌, ◌<◌, ◌+◌, None, IfSome, length};
ghost use Rattle.std.specs.List.{AllZip};
ghost use Rattle.store_group.specs.Answers.{AnswersAt, AnswersFirst, AnswersRound, AskedUpTo, FailsAll};

use crate::answer::{Answer, Question, ask};
use chunk_store::id::ChunkId;
use chunk_store::store::Store;

// Asks the stores in turn, each up to `retries` times more while it fails. Answers which was the first that didn't
// fail, and what it said.
fn ask_in_turn<S: Store>(
    stores: &mut [S],
    retries: u32,
    question: Question,
    id: &ChunkId,
    out: &mut [u8],
) -> Option<(usize, Answer)>
    ensures answer { IfSome result (λ p. AnswersFirst S.Store question retries id.now.0 p.0 stores.old stores.new
        out.new p.1) }
    ensures inside { IfSome result (λ p. p.0 < length stores.new) }
    ensures failed { result ≡ None → AllZip (FailsAll S.Store retries) stores.old stores.new }
    ensures asked { AllZip (AskedUpTo S.Store question (retries + 1) id.now.0) stores.old stores.new }
{
    let (first, rest) = stores.split_first_mut()?;
    let answer = ask(first, retries, question, id, out);
    if answer != Answer::Failed {
        return Some((0, answer));
    }
    let (number, answer) = ask_in_turn(rest, retries, question, id, out)?;
    Some((number + 1, answer))
}

// Asks the stores in turn as `ask_in_turn` does, from the active one on, and round to it.
pub(crate) fn ask_round<S: Store>(
    stores: &mut [S],
    active: usize,
    retries: u32,
    question: Question,
    id: &ChunkId,
    out: &mut [u8],
) -> Option<(usize, Answer)>
    requires active { active < length stores.old }
    ensures answer { IfSome result (λ p. AnswersRound S.Store question retries id.now.0 active p.0 stores.old
        stores.new out.new p.1) }
    ensures at { IfSome result (λ p. AnswersAt S.Store question id.now.0 p.0 stores.old stores.new out.new p.1) }
    ensures inside { IfSome result (λ p. p.0 < length stores.new) }
    ensures failed { result ≡ None → AllZip (FailsAll S.Store retries) stores.old stores.new }
    ensures asked { AllZip (AskedUpTo S.Store question (retries + 1) id.now.0) stores.old stores.new }
{
    let (before, from) = stores.split_at_mut(active);
    match ask_in_turn(from, retries, question, id, out) {
        Some((number, answer)) => Some((active + number, answer)),
        None => ask_in_turn(before, retries, question, id, out),
    }
}
