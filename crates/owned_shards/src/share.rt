//! The share of a worker in the survey of a target: neighbouring shards. Offsets are bytes from 0; shards count from 0.

ghost use Rattle.std.specs.Prelude.{◌≡◌, ◌+◌, ◌++◌, ◌≤◌, ℕ, [], All, IfOk, IsTrue, length, reverse};
ghost use Rattle.std.specs.Prelude.{vec_capacity, vec_len};
ghost use Rattle.caibx_codec.specs.Listing.{image_length};
ghost use Rattle.owned_shards.specs.Shares.{HasSurveyed, IsUndealt, AwaitsSurvey, IsUnsurveyed, TakesEach};
ghost use Rattle.owned_shards.specs.Wholes.{Begun, ZerosFrom};

use crate::shards::put_back;
use dsy_base::view::{Part, View};
use range_ledger::run::RunName;
use range_ledger::shard::Shard;
use range_ledger::unread::Unread;
use range_survey::zeros::ZeroDigests;
use std::alloc::{AllocError, Global};

/// The shards that a worker has still to survey, the first one first, and those that it has surveyed, the last one
/// first. It is to have `count` of them.
#[derive(Drop)]
pub(crate) struct Share<'a, P: Part, R: RunName> {
    pub count: usize,
    pub unread: Vec<Unread<'a, P, R>>,
    pub shards: Vec<Shard<'a, P, R>>,
}

// Moves `count` values from the end of a list to the end of another, which has room for them: the last one first.
fn move_last<X: Drop>(from: &mut Vec<X>, to: &mut Vec<X>, count: usize)
    requires some { count ≤ vec_len from.old }
    requires room { vec_len to.old + count ≤ vec_capacity to.old }
    ensures items { to.new.items ++ reverse from.new.items ≡ to.old.items ++ reverse from.old.items }
    ensures size { vec_len from.new + count ≡ vec_len from.old }
    ensures kept { vec_capacity to.old ≤ vec_capacity to.new }
{
    let stop = from.len() - count;
    while stop < from.len() {
        let Some(last) = from.pop() else {
            unreachable!();
        };
        put_back(to, last);
    }
}

// The shard after its survey. All bytes of the target from `old` on are zeros.
fn surveyed<'a, P: Part, R: RunName>(
    unread: Unread<'a, P, R>,
    zeros: &(ZeroDigests, u64),
    buf: &mut [u8],
) -> Shard<'a, P, R>
    requires unread { IsUnsurveyed R.run unread }
    requires tells { P.tells ≡ R.run.tells }
    requires zeros { IsTrue R.run.tells → ZerosFrom zeros.now.1 R.run.base }
    requires size { IsTrue R.run.tells → length R.run.base ≡ image_length R.run.listing }
    requires room { TakesEach R.run.listing (length buf.old) }
    ensures number { result.number ≡ unread.entry.number }
    ensures begun { Begun R.run result }
    ensures room { length buf.new ≡ length buf.old }
{
    let mut unread = unread;
    unread.survey(&zeros.0, zeros.1, buf);
    let shard = unread.begin();
    shard.rules();
    shard
}

impl<'a, P: Part, R: RunName> Share<'a, P, R> {
    /// Has no shard yet, but room for `count` of them.
    pub fn new(alloc: Global, count: usize) -> Result<Share<'a, P, R>, AllocError>
        ensures none { IfOk result IsUndealt }
        ensures count { IfOk result (λ a. a.count ≡ count) }
    {
        Ok(Share {
            count,
            unread: Vec::with_capacity(alloc, count)?,
            shards: Vec::with_capacity(alloc, count)?,
        })
    }

    /// Takes its shards from the end of a list of them, in which the last one is the first.
    pub fn take(&mut self, unread: &mut Vec<Unread<'a, P, R>>)
        requires none { IsUndealt self.old }
        requires some { self.old.count ≤ vec_len unread.old }
        ensures items { self.new.unread.items ++ reverse unread.new.items ≡ reverse unread.old.items }
        ensures size { vec_len unread.new + self.old.count ≡ vec_len unread.old }
        ensures none { self.new.shards.items ≡ [] }
        ensures room { vec_len self.new.unread ≤ vec_capacity self.new.shards }
    {
        move_last(unread, &mut self.unread, self.count);
    }

    /// Surveys its shards. `buf` has room for the largest entry.
    pub fn survey(&mut self, zeros: &(ZeroDigests, u64), buf: &mut [u8])
        requires ready { AwaitsSurvey R.run self.old }
        requires tells { P.tells ≡ R.run.tells }
        requires zeros { IsTrue R.run.tells → ZerosFrom zeros.now.1 R.run.base }
        requires size { IsTrue R.run.tells → length R.run.base ≡ image_length R.run.listing }
        requires room { TakesEach R.run.listing (length buf.old) }
        ensures begun { HasSurveyed R.run self.old self.new }
        ensures room { length buf.new ≡ length buf.old }
    {
        while let Some(unread) = self.unread.pop() {
            put_back(&mut self.shards, surveyed(unread, zeros, buf));
        }
    }

    /// Puts the shards that it has surveyed behind those of the list, which has room for them.
    pub fn give(self, shards: &mut Vec<Shard<'a, P, R>>)
        requires room { vec_len shards.old + vec_len self.shards ≤ vec_capacity shards.old }
        ensures items { shards.new.items ≡ shards.old.items ++ reverse self.entry.shards.items }
        ensures room { vec_capacity shards.old ≤ vec_capacity shards.new }
    {
        let mut surveyed = self.shards;
        let count = surveyed.len();
        move_last(&mut surveyed, shards, count);
    }
}
