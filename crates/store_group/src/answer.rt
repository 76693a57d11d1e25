//! One question to a store, and its answer. A question that fails is asked again.

ghost use Rattle.std.specs.Prelude.{◌≡◌, ◌≤◌, ◌+◌};
ghost use Rattle.dsy_base.specs.Counts.{Rose, raised};
ghost use Rattle.store_group.specs.Answers.{AskedUpTo, AnswerSays, answer_to_get, answer_to_has};

use chunk_store::id::ChunkId;
use chunk_store::store::{GetFault, Store};
use dsy_base::fault::IoFault;

// What a store is asked: for the chunk, or whether it has it.
#[derive(Clone, Copy, Debug, PartialEq, Eq)]
pub(crate) enum Question {
    Get,
    Has,
}

// What a store answers.
#[derive(Clone, Copy, Debug, PartialEq, Eq)]
pub(crate) enum Answer {
    // So many bytes, in the front of the buffer.
    Given(usize),
    Missing,
    Longer,
    // Whether it has the chunk.
    There(bool),
    Failed,
    Memory,
}

fn answer_to_get(got: Result<usize, GetFault>) -> Answer
    ensures { result ≡ answer_to_get got }
{
    match got {
        Ok(n) => Answer::Given(n),
        Err(GetFault::Missing) => Answer::Missing,
        Err(GetFault::Longer) => Answer::Longer,
        Err(GetFault::Failed) => Answer::Failed,
        Err(GetFault::Memory) => Answer::Memory,
    }
}

fn answer_to_has(there: Result<bool, IoFault>) -> Answer
    ensures { result ≡ answer_to_has there }
{
    match there {
        Ok(has) => Answer::There(has),
        Err(IoFault::Failed) => Answer::Failed,
        Err(IoFault::Memory) => Answer::Memory,
    }
}

// Asks for the chunk, once.
fn get_once<S: Store>(store: &mut S, id: &ChunkId, out: &mut [u8]) -> Answer
    ensures says { AnswerSays S.Store Question.Get id.now.0 store.old store.new out.new result }
    ensures asked { AskedUpTo S.Store Question.Get 1 id.now.0 store.old store.new }
    ensures failed { result ≡ Answer.Failed → Rose (S.faults store.old) (S.faults store.new) }
{
    let got = store.get(id, out);
    answer_to_get(got)
}

// Asks whether the store has the chunk, once.
fn has_once<S: Store>(store: &mut S, id: &ChunkId, out: &mut [u8]) -> Answer
    ensures says { AnswerSays S.Store Question.Has id.now.0 store.old store.new out.new result }
    ensures asked { AskedUpTo S.Store Question.Has 1 id.now.0 store.old store.new }
    ensures failed { result ≡ Answer.Failed → Rose (S.faults store.old) (S.faults store.new) }
{
    let there = store.has(id);
    answer_to_has(there)
}

// Asks the store once.
fn ask_once<S: Store>(store: &mut S, question: Question, id: &ChunkId, out: &mut [u8]) -> Answer
    ensures says { AnswerSays S.Store question id.now.0 store.old store.new out.new result }
    ensures asked { AskedUpTo S.Store question 1 id.now.0 store.old store.new }
    ensures failed { result ≡ Answer.Failed → Rose (S.faults store.old) (S.faults store.new) }
{
    match question {
        Question::Get => get_once(store, id, out),
        Question::Has => has_once(store, id, out),
    }
}

// Asks the store, and again while it fails, up to `retries` times more.
pub(crate) fn ask<S: Store>(
    store: &mut S,
    retries: u32,
    question: Question,
    id: &ChunkId,
    out: &mut [u8],
) -> Answer
    ensures says { AnswerSays S.Store question id.now.0 store.old store.new out.new result }
    ensures asked { AskedUpTo S.Store question (retries + 1) id.now.0 store.old store.new }
    ensures failed { result ≡ Answer.Failed → raised (S.faults store.old) (retries + 1) ≤ S.faults store.new }
{
    if retries == 0 {
        return ask_once(store, question, id, out);
    }
    match ask_once(store, question, id, out) {
        Answer::Failed => ask(store, retries - 1, question, id, out),
        answer => answer,
    }
}
