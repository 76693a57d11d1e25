//! A target in shards while each shard stands behind a lock of its own. Shards count from 0.

ghost use Rattle.std.specs.Prelude.{◌≡◌, ◌≤◌, [], IfSome, IsTrue, is_some, length, vec_capacity, vec_len};
ghost use Rattle.owned_shards.specs.Wholes.{AreShards, KeptWhole, joined_faults};
ghost use Rattle.range_ledger.specs.Runs.{IsShard};

use crate::lock::ShardLock;
use crate::shards::{Shards, put_back};
use caibx_codec::index::Index;
use dsy_base::view::{Part, Target, View};
use range_ledger::ledger::Ledger;
use range_ledger::run::RunName;
use range_ledger::shard::Shard;
use std::marker::Model;
use std::sync::Wait;

/// What is left of a target in shards while these stand behind locks. It has the room that taking them out and joining
/// their parts takes.
#[derive(Drop)]
pub struct Frame<'a, R: RunName, T: Target> {
    index: &'a Index,
    rest: T::Rest,
    shards: Vec<Shard<'a, T::Piece, R>>,
    parts: Vec<T::Piece>,
}

impl<'a, R: RunName, T: Target> Model for Frame<'a, R, T> {
    ghost use Rattle.std.specs.Prelude.{◌≡◌, ◌≤◌, [], vec_capacity};
    ghost use Rattle.dsy_base.specs.Splits.{Left};
    ghost use Rattle.owned_shards.specs.Wholes.{AwaitsShards};

    ghost Value = { Left };

    ghost view = { λ s. T.left s.rest };

    ghost invariant = { λ s. (s.index.now ≡ R.run.listing) × (R.run.tells ≡ T.tells)
        × AwaitsShards R.run T.tells (T.left s.rest)
        × (s.shards.items ≡ []) × (s.parts.items ≡ [])
        × (R.run.shards ≤ vec_capacity s.shards) × (R.run.shards ≤ vec_capacity s.parts) };
}

// Each shard behind a lock of its own, in their order, and the room of the shards.
fn lock_all<'a, P: Part, R: RunName>(
    shards: Vec<Shard<'a, P, R>>,
    room: Vec<ShardLock<'a, P, R>>,
) -> (Vec<Shard<'a, P, R>>, Vec<ShardLock<'a, P, R>>)
    requires none { room.items ≡ [] }
    requires room { vec_len shards ≤ vec_capacity room }
    ensures none { result.0.items ≡ [] }
    ensures room { vec_len shards.entry ≤ vec_capacity result.0 }
    ensures size { vec_len result.1 ≡ vec_len shards.entry }
    ensures sure { IsTrue P.never_fails → joined_faults shards.entry.items ≡ 0 }
{
    let mut shards = shards;
    let mut locks = room;
    while let Some(shard) = shards.pop() {
        // Only for its contract: a part that never fails counts no fault.
        shard.rules();
        put_back(&mut locks, ShardLock::new(shard));
    }
    locks.reverse();
    (shards, locks)
}

// The shard of this number, taken out of its lock.
fn taken_out<'a, W: Wait, P: Part, R: RunName>(
    rt: &W,
    lock: ShardLock<'a, P, R>,
    number: usize,
) -> Shard<'a, P, R>
    ensures number { result.number ≡ number }
    ensures kept { IsShard R.run result }
    ensures tells { is_some result.held.bytes ≡ P.tells }
    ensures sized { IfSome result.held.bytes (λ t. length t ≡ result.held.size) }
{
    let shard = lock.into_inner();
    shard.rules();
    if shard.number() == number {
        return shard;
    }
    // No lock holds another's shard, which no proof can see.
    for _ in rt.forever() {}
    unreachable!()
}

// The shards behind these locks, in their order. `shards` has the room for them.
fn unlock_all<'a, W: Wait, P: Part, R: RunName>(
    rt: &W,
    locks: Vec<ShardLock<'a, P, R>>,
    shards: Vec<Shard<'a, P, R>>,
) -> Vec<Shard<'a, P, R>>
    requires tells { P.tells ≡ R.run.tells }
    requires size { vec_len locks ≡ R.run.shards }
    requires none { shards.items ≡ [] }
    requires room { R.run.shards ≤ vec_capacity shards }
    ensures all { AreShards R.run 0 result.items }
    ensures size { vec_len result ≡ R.run.shards }
{
    let mut locks = locks;
    let mut shards = shards;
    while let Some(lock) = locks.pop() {
        let number = locks.len();
        put_back(&mut shards, taken_out(rt, lock, number));
    }
    shards.reverse();
    shards
}

impl<'a, R: RunName, T: Target> Shards<'a, R, T> {
    /// Puts each shard behind a lock of its own, in their order. `room` is for the locks.
    pub fn lock(
        self,
        room: Vec<ShardLock<'a, T::Piece, R>>,
    ) -> (Frame<'a, R, T>, Vec<ShardLock<'a, T::Piece, R>>)
        requires none { room.items ≡ [] }
        requires room { R.run.shards ≤ vec_capacity room }
        ensures count { vec_len result.1 ≡ R.run.shards }
        ensures size { result.0.size ≡ self.entry.held.size }
        ensures name { result.0.name ≡ self.entry.held.name }
        ensures faults { result.0.faults ≡ self.entry.faults_before }
        ensures sure { IsTrue T.never_fails → self.entry.faults ≡ self.entry.faults_before }
    {
        let Shards {
            index,
            rest,
            shards,
            parts,
        } = self;
        let (shards, locks) = lock_all(shards, room);
        let frame = Frame {
            index,
            rest,
            shards,
            parts,
        };
        (frame, locks)
    }
}

impl<'a, R: RunName, T: Target> Frame<'a, R, T> {
    /// The target in shards, once each is taken out of its lock. What workers did is known by what a shard keeps. It
    /// takes no memory.
    pub fn unlock<W: Wait>(self, rt: &W, locks: Vec<ShardLock<'a, T::Piece, R>>) -> Shards<'a, R, T>
        requires count { vec_len locks ≡ R.run.shards }
        ensures size { result.held.size ≡ self.entry.size }
        ensures name { result.held.name ≡ self.entry.name }
        ensures before { result.faults_before ≡ self.entry.faults }
        ensures faults { self.entry.faults ≤ result.faults }
        ensures kept { IfSome result.held.bytes (KeptWhole R.run result) }
    {
        let shards = unlock_all(rt, locks, self.shards);
        let whole = Shards::new(self.index, self.rest, shards, self.parts);
        whole.keeps();
        whole
    }
}
