//! Groups of stores. A group is a store itself. Stores are numbered from 0.

ghost use Rattle.std.specs.Prelude.{IsTrue, [], ◌≡◌, ◌≢◌, ◌<◌, ◌≤◌, ◌+◌, length, vec_len};
ghost use Rattle.std.specs.List.{AllZip};
ghost use Rattle.dsy_base.specs.Counts.{raised};
ghost use Rattle.store_group.specs.Answers.{AnswerSays, AnswersRound, AskedUpTo, FailsAll, IsAbout, answer_to_get};
ghost use Rattle.store_group.specs.Answers.{answer_to_has};
ghost use Rattle.store_group.specs.Groups.{AsksGroup, CountsByAnswer, CountsFailures, Grouped, as_store, group_faults};

use crate::answer::{Answer, Question};
use crate::turns::ask_round;
use chunk_store::id::ChunkId;
use chunk_store::store::{GetFault, Store};
use dsy_base::fault::{IoFault, raise};
use std::marker::Model;

/// Stores that are meant to hold the same chunks. One of them is active: it alone is asked, until it fails. Then it is
/// asked again, up to a number of times, and after that the next one becomes active.
#[derive(Drop)]
pub struct Group<S: Store> {
    stores: Vec<S>,
    active: usize,
    retries: u32,
    failed: u64,
}

impl<S: Store> Model for Group<S> {
    ghost use Rattle.std.specs.Prelude.{◌≡◌, ◌<◌, length, IsTrue};
    ghost use Rattle.store_group.specs.Groups.{Grouped, CountsFailures};

    ghost Value = { Grouped S };

    ghost view = { λ g. record { stores = g.stores.items; active = g.active; retries = g.retries; failed = g.failed } };

    ghost invariant = { λ g. (g.active < length g.stores.items) × (IsTrue S.never_fails → g.active ≡ 0)
        × CountsFailures S.faults (record {
          stores = g.stores.items;
          active = g.active;
          retries = g.retries;
          failed = g.failed;
        }) };
}

// What a call of `get` answers.
fn got(answer: Answer) -> Result<usize, GetFault>
    requires { IsAbout answer Question.Get }
    ensures { answer_to_get result ≡ answer }
{
    match answer {
        Answer::Given(n) => Ok(n),
        Answer::Missing => Err(GetFault::Missing),
        Answer::Longer => Err(GetFault::Longer),
        Answer::Failed => Err(GetFault::Failed),
        Answer::Memory => Err(GetFault::Memory),
        Answer::There(_) => unreachable!(),
    }
}

// What a call of `has` answers.
fn there(answer: Answer) -> Result<bool, IoFault>
    requires { IsAbout answer Question.Has }
    ensures { answer_to_has result ≡ answer }
{
    match answer {
        Answer::There(has) => Ok(has),
        Answer::Failed => Err(IoFault::Failed),
        Answer::Memory => Err(IoFault::Memory),
        Answer::Given(_) | Answer::Missing | Answer::Longer => unreachable!(),
    }
}

impl<S: Store> Group<S> {
    /// The first of the stores is active. A call that fails is made up to `retries` times more.
    pub fn new(stores: Vec<S>, retries: u32) -> Group<S>
        requires size { 1 ≤ vec_len stores }
        ensures value { result ≡ record { stores = stores.items; active = 0; retries = retries; failed = 0 } }
    {
        Group {
            stores,
            active: 0,
            retries,
            failed: 0,
        }
    }

    pub fn into_stores(self) -> Vec<S>
        ensures value { result.items ≡ self.stores }
        ensures active { self.active < length self.stores }
        ensures counts { CountsFailures S.faults self }
    {
        let Group { stores, .. } = self;
        stores
    }

    /// The number of the store that is asked first.
    pub fn active(&self) -> usize
        ensures value { result ≡ self.now.active }
        ensures inside { result < length self.now.stores }
    {
        self.active
    }

    // Asks the active store, and those after it where it fails, round the group.
    fn answer(&mut self, question: Question, id: &ChunkId, out: &mut [u8]) -> Answer
        ensures says { AnswerSays (as_store S.Store) question id.now.0 self.old self.new out.new result }
        ensures asked { AskedUpTo (as_store S.Store) question 1 id.now.0 self.old self.new }
        ensures turns { AllZip (AskedUpTo S.Store question (self.old.retries + 1) id.now.0) self.old.stores
            self.new.stores }
        ensures active { result ≢ Answer.Failed → (self.new.failed ≡ self.old.failed) × AnswersRound S.Store question
            self.old.retries id.now.0 self.old.active self.new.active self.old.stores self.new.stores out.new result }
        ensures failed { result ≡ Answer.Failed → (self.new.failed ≡ raised self.old.failed 1)
            × (self.new.active ≡ self.old.active)
            × AllZip (FailsAll S.Store self.old.retries) self.old.stores self.new.stores }
        ensures retries { self.new.retries ≡ self.old.retries }
        ensures counts { CountsByAnswer result (group_faults S.never_fails self.old)
            (group_faults S.never_fails self.new) }
    {
        let stores = self.stores.as_mut_slice();
        match ask_round(stores, self.active, self.retries, question, id, out) {
            Some((number, answer)) => {
                self.active = number;
                answer
            }
            None => {
                self.failed = raise(self.failed, 1);
                Answer::Failed
            }
        }
    }

    /// Fills the front of `out` with the bytes that the group gives under the id, and answers their number.
    pub fn ask_for(&mut self, id: &ChunkId, out: &mut [u8]) -> Result<usize, GetFault>
        ensures asked { AsksGroup S.Store Question.Get id.now.0 self.old self.new out.new (answer_to_get result) }
    {
        let answer = self.answer(Question::Get, id, out);
        got(answer)
    }

    /// Whether the group has something under the id.
    pub fn ask_whether(&mut self, id: &ChunkId) -> Result<bool, IoFault>
        ensures asked { AsksGroup S.Store Question.Has id.now.0 self.old self.new [] (answer_to_has result) }
    {
        let answer = self.answer(Question::Has, id, &mut []);
        there(answer)
    }
}

impl<S: Store> Store for Group<S> {
    ghost use Rattle.std.specs.Prelude.{◌&&◌, false, map};
    ghost use Rattle.std.proofs.Common.{rules};
    ghost use Rattle.store_group.specs.Groups.{group_faults, group_folder, group_holds, group_members, group_place};
    ghost use Rattle.store_group.specs.Groups.{group_times, group_told, sent_of};
    ghost use Rattle.store_group.specs.Groups.{lies_by, says_by, sure_by, told_by, unasked_by};
    ghost use Rattle.store_group.specs.Vouched.{alone_by, vouched_by};

    ghost holds = { λ g. group_holds S.never_fails S.told_never_fail S.holds g };

    ghost members = { λ g. group_members S.never_fails S.told_never_fail S.holds S.members g };

    ghost folder = { λ g. group_folder S.never_fails S.told_never_fail S.holds S.folder g };

    ghost folders = { λ g. map S.folder g.stores };

    ghost giver = { λ g. g.active };

    ghost said = { λ g. group_told S.never_fails S.told_never_fail S.holds S.said g };

    ghost sent = { λ g. sent_of S.sent g.stores };

    ghost asked = { λ g. group_times S.never_fails S.asked g };

    ghost queried = { λ g. group_times S.never_fails S.queried g };

    ghost faults = { λ g. group_faults S.never_fails g };

    ghost place = { λ g. group_place S.place g };

    ghost tells = { S.never_fails && S.tells };

    ghost never_fails = { S.never_fails };

    ghost told_never_fail = { false };

    ghost may_lack_memory = { S.may_lack_memory };

    fn get(&mut self, id: &ChunkId, out: &mut [u8]) -> Result<usize, GetFault> {
        self.ask_for(id, out)
    }

    fn giver(&self) -> usize {
        self.active()
    }

    fn has(&mut self, id: &ChunkId) -> Result<bool, IoFault> {
        self.ask_whether(id)
    }

    ghost alone = { λ g. alone_by S.holds S.never_fails S.told_never_fail S.members g };

    ghost vouched = { λ g. vouched_by S.holds S.said S.members S.vouched S.never_fails S.told_never_fail S.says g };

    ghost says = { λ g. says_by S.holds S.never_fails S.told_never_fail S.said S.says g };

    ghost lies = { λ g. lies_by S.holds S.never_fails S.told_never_fail S.folder S.lies g };

    ghost unasked = { λ g. unasked_by S.holds S.never_fails S.told_never_fail S.asked S.queried S.unasked g };

    ghost told = { λ g t. told_by S.holds S.never_fails S.told_never_fail S.tells S.told g t };

    ghost sure = { λ g t. sure_by S.never_fails g t };

    ghost steady = { Prim.search rules };
}
